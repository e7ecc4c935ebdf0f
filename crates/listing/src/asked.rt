// The same question to engines of any type, each under its name.
ghost use Rattle.std.specs.Prelude.{◌≡◌, ℕ, Bool, List, Ok};
ghost use Rattle.answer.specs.Refusal.{read};
ghost use Rattle.answer.specs.Rules.{then};
ghost use Rattle.code.specs.Model.{asked};
ghost use Rattle.listing.specs.Asked.{answered, degree_asked, number_from};

use answer::fault::Fault;
use code::bank::Bank;
use code::description::Description;
use code::kind::Kind;
use crc::crc_kind::Crc;
use crc::parity_kind::CrcParity;
use engine::engine::Engine;
use engine::remainder::remainder_by;
use engine::running::check_pieces;

/// What an engine is asked for.
#[derive(Clone, Copy, PartialEq, Eq, Debug)]
pub enum Question<'a> {
    /// the remainder of a message by X^degree + low
    Remainder(u8, u32, &'a [u8]),
    /// the same of pieces, by a running check
    Pieces(u8, u32, &'a [&'a [u8]]),
    /// the check of a message by kind 1 or 2 over the engine
    Check(Description, &'a [u8]),
}

impl Question<'_> {
    // The degree of the generator, or of the first of the code.
    pub(crate) fn degree(self) -> u8
        ensures { result ≡ degree_asked self.entry }
    {
        match self {
            Question::Remainder(degree, _, _) | Question::Pieces(degree, _, _) => degree,
            Question::Check(description, _) => description.degree,
        }
    }
}

pub trait Asked {
    // what the engine carries
    ghost carries: { Self → ℕ → ℕ → Bool };

    ghost title: { Self → List ℕ };

    fn name(&self) -> &'static str
        ensures { result.now ≡ title self.now };

    fn answer(&self, question: Question) -> Result<u32, Fault>
        ensures { read result ≡ answered (carries self.now) question.entry };
}

/// An engine and its name.
#[derive(Clone, Copy)]
pub struct Named<E> {
    name: &'static str,
    engine: E,
}

impl<E: Engine> Named<E> {
    /// A new engine under a name.
    pub fn new(name: &'static str) -> Named<E>
        ensures name { result.name.now ≡ name.now }
        ensures register { E.register_of result.engine ≡ 0 }
    {
        Named {
            name,
            engine: E::new(),
        }
    }
}

impl<E: Engine + Copy + Drop> Asked for Named<E> {
    ghost carries = { λ n. E.Engine.carries_of n.engine };

    ghost title = { λ n. n.name.now };

    fn name(&self) -> &'static str {
        self.name
    }

    fn answer(&self, question: Question) -> Result<u32, Fault> {
        let mut engine = self.engine;
        match question {
            Question::Remainder(degree, low, message) => {
                remainder_by(&mut engine, degree, low, message)
            }
            Question::Pieces(degree, low, pieces) => {
                engine.set(degree, low)?;
                let (value, _) = check_pieces(engine, pieces);
                Ok(value)
            }
            Question::Check(description, message) => {
                let mut kinds = Bank::new(Crc::new(engine), CrcParity::new(engine));
                check_by(&mut kinds, description, message)
            }
        }
    }
}

// The number whose bytes these are, the highest first. (Kind 3 has one of its own, of as many bytes as a constant says, and a polynomial for
// contract: one for both would ask the caller for the length, and is no plainer.)
fn number_from(bytes: &[u8]) -> u32
    ensures { result ≡ number_from bytes.now }
{
    bytes
        .iter()
        .fold(0, |number, byte| number << 8 | u32::from(*byte))
}

// A check of at most four bytes as a number.
fn check_by<K: Kind>(kind: &mut K, description: Description, message: &[u8]) -> Result<u32, Fault>
    ensures { read result ≡ then ((asked (K.model kind.old)).check description message.now 4) (λ bytes. Ok (number_from bytes)) }
{
    let mut out = [0; 4];
    let size = kind.check(description, message, &mut out)?;
    Ok(number_from(&out[..size]))
}
