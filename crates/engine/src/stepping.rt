// What the engines share: the generators that set accepts, and the steps of a register.
ghost use Rattle.std.specs.Prelude.{◌≡◌, ℕ, ◌-◌, ◌*◌, ◌/◌, ◌%◌, ◌^◌, ◌<◌, ◌≤◌, bit_xor};
ghost use Rattle.answer.specs.Rules.{by_rules};
ghost use Rattle.poly.specs.Rules.{generator_rules, pair, seen};
ghost use Rattle.engine.specs.Feed.{fed};

use crate::register::Register;
use answer::fault::Fault;
use poly::generator::Generator;

// A generator of degree 8 to 32.
pub fn generator_of(degree: u8, low: u32) -> Result<Generator, Fault>
    ensures { seen result ≡ by_rules (generator_rules 8 degree low) (pair degree low) }
{
    if degree < 8 {
        return Err(Fault::EngineDegree);
    }
    Generator::new(degree, low)
}

// X^8 + 1, what a new engine holds.
pub fn least() -> Generator
    ensures degree { result.degree ≡ 8 }
    ensures low { result.low ≡ 1 }
{
    Generator::new(8, 1).unwrap()
}

impl Register {
    // The byte q goes to the top of the value, which is then multiplied by X eight times.
    pub(crate) fn feed_bits(&mut self, q: u8)
        ensures generator { self.new.generator ≡ self.old.generator }
        ensures fed { self.new.value ≡ fed self.old.generator.degree self.old.generator.low self.old.value q }
    {
        let top = u32::from(q) << (self.generator.degree() - 8);
        self.value = self.generator.remainder(self.value ^ top, 8);
    }

    // The top byte of the value, plus q. It is not cut to a byte on the way, which every look-up would wait for.
    pub(crate) fn top_byte(self, q: u8) -> u32
        ensures byte { result ≡ bit_xor (self.value / 2 ^ (self.generator.degree - 8)) q }
        ensures below { result < 256 }
    {
        (self.value >> (self.generator.degree() - 8)) ^ u32::from(q)
    }

    // The value times X^8, cut to the degree.
    pub(crate) fn moved_up(self) -> u32
        ensures { result ≡ self.value * 2 ^ 8 % 2 ^ self.generator.degree }
    {
        ((u64::from(self.value) << 8) & ((1 << self.generator.degree()) - 1)) as u32
    }
}
