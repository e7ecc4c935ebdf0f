// Remainders by long division, bit by bit. (How far up a generator of a lower degree stands, and its low part there, are worked out where they
// are used: a struct of the two would be taken apart again in every line.)
ghost use Rattle.std.specs.Prelude.{◌≡◌, ℕ, ◌*◌, ◌^◌};
ghost use Rattle.poly.specs.Poly.{rem};

use crate::generator::Generator;

// X times r modulo X^32 + low. A mask takes the place of a test: it is all ones where X^32 comes up.
pub fn twice_at_top(low: u32, r: u32) -> u32
    ensures { result ≡ rem 32 low (r * 2) }
{
    (r << 1) ^ (low & 0u32.wrapping_sub(r >> 31))
}

// Long division: the bits of p come in from the highest. A polynomial of a lower degree is its own remainder. The remainder stands at
// the top of 32 bits on the way, and the generator too.
fn divide(generator: Generator, p: u32) -> u32
    ensures { result ≡ rem generator.degree generator.low p }
{
    if u64::from(p) >> generator.degree == 0 {
        return p;
    }
    let up = 32 - generator.degree;
    let low = generator.low << up;
    let mut r = 0;
    for i in 0..32u8 {
        r = twice_at_top(low, r) ^ (((p >> (31 - i)) & 1) << up);
    }
    r >> up
}

impl Generator {
    // The remainder of p × X^k.
    pub fn remainder(self, p: u32, k: u8) -> u32
        ensures { result ≡ rem self.degree self.low (p * 2 ^ k) }
    {
        let up = 32 - self.degree;
        let low = self.low << up;
        let mut r = divide(self, p) << up;
        for _ in 0..k {
            r = twice_at_top(low, r);
        }
        r >> up
    }
}
