// The two sums of a message's tuples.
ghost use Rattle.std.specs.Prelude.{◌≡◌, ◌*◌, ◌^◌, ◌<◌, ◌≤◌};
ghost use Rattle.poly.specs.Poly.{rem, string};
ghost use Rattle.words.specs.Words.{weighted, plain};
ghost use Rattle.words.specs.Tuples.{Size, tuples};

use crate::weighted::Weighted;
use poly::generator::Generator;
use poly::long_division::twice_at_top;

// The weighted sum modulo a generator, by Horner's rule, and the plain sum.
#[derive(Clone, Copy, PartialEq, Eq, Debug)]
pub(crate) struct Sums {
    pub(crate) horner: u32,
    pub(crate) total: u32,
}

// The number in a tuple, first byte highest.
fn number<const N: usize>(tuple: &[u8; N]) -> u32
    requires { N ≤ 4 }
    ensures number { result ≡ string 8 tuple.now }
    ensures below { result < 2 ^ (8 * N) }
{
    tuple
        .iter()
        .fold(0, |number, byte| (number << 8) ^ u32::from(*byte))
}

// Both sums, one step for each tuple of N bytes. The weighted sum stands at the top of 32 bits on the way, and the generator too.
fn add_up<const N: usize>(generator: Generator, message: &[u8]) -> Sums
    requires { (Size N) × (generator.degree ≡ 8 * N) }
    ensures horner { result.horner ≡ rem generator.degree generator.low (weighted (tuples N message.now)) }
    ensures total { result.total ≡ plain (tuples N message.now) }
{
    let up = 32 - 8 * N;
    let top = generator.low() << up;
    let (tuples, _) = message.as_chunks::<N>();
    let mut horner = 0;
    let mut total = 0;
    for tuple in tuples {
        let q = number(tuple);
        horner = twice_at_top(top, horner) ^ (q << up);
        total ^= q;
    }
    Sums {
        horner: horner >> up,
        total,
    }
}

impl Weighted {
    // The sums modulo the first generator.
    pub(crate) fn sums(self, message: &[u8]) -> Sums
        ensures horner { result.horner ≡ rem self.first.degree self.first.low (weighted (tuples self.tuple message.now)) }
        ensures total { result.total ≡ plain (tuples self.tuple message.now) }
    {
        match self.tuple {
            1 => add_up::<1>(self.first, message),
            2 => add_up::<2>(self.first, message),
            _ => add_up::<4>(self.first, message),
        }
    }
}
