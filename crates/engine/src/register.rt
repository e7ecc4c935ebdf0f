// The register of a generator: as many bits as its degree, which is 8 or more.
ghost use Rattle.std.specs.Prelude.{◌≡◌, ◌-◌, ◌*◌, ◌/◌, ◌^◌, ◌<◌, ◌≤◌};
ghost use Rattle.answer.specs.Refusal.{read, if_ok};
ghost use Rattle.answer.specs.Rules.{by_rules};
ghost use Rattle.poly.specs.Rules.{generator_rules};

use crate::stepping::{generator_of, least};
use answer::fault::Fault;
use poly::generator::Generator;

#[repr(C)]
#[derive(Clone, Copy, PartialEq, Eq, Debug)]
pub struct Register {
    pub(crate) generator: Generator,
    pub(crate) value: u32,
    ghost ok: { (8 ≤ generator.degree) × (value < 2 ^ generator.degree) },
}

impl Register {
    // X^8 + 1, and zero.
    pub fn new() -> Register
        ensures value { result.value ≡ 0 }
        ensures degree { result.generator.degree ≡ 8 }
        ensures low { result.generator.low ≡ 1 }
    {
        Register {
            generator: least(),
            value: 0,
        }
    }

    // Takes up X^degree + low, of a degree of 8 or more, and zero; a refusal alters nothing.
    pub fn set(&mut self, degree: u8, low: u32) -> Result<(), Fault>
        ensures answer { read result ≡ by_rules (generator_rules 8 degree low) tt }
        ensures degree { self.new.generator.degree ≡ if_ok result degree self.old.generator.degree }
        ensures low { self.new.generator.low ≡ if_ok result low self.old.generator.low }
        ensures value { self.new.value ≡ if_ok result 0 self.old.value }
    {
        *self = Register {
            generator: generator_of(degree, low)?,
            value: 0,
        };
        Ok(())
    }

    // Zero, with the same generator.
    pub fn clear(&mut self)
        ensures generator { self.new.generator ≡ self.old.generator }
        ensures value { self.new.value ≡ 0 }
    {
        self.value = 0;
    }

    pub fn generator(self) -> Generator
        ensures { result ≡ self.generator }
    {
        self.generator
    }

    pub fn value(self) -> u32
        ensures { result ≡ self.value }
    {
        self.value
    }

    // The value moved to the top of 32 bits.
    pub fn at_top(self) -> u32
        ensures { result ≡ self.value * 2 ^ (32 - self.generator.degree) }
    {
        self.value << (32 - self.generator.degree())
    }

    // Takes the value back from the top of 32 bits.
    pub fn set_from_top(&mut self, top: u32)
        ensures generator { self.new.generator ≡ self.old.generator }
        ensures value { self.new.value ≡ top / 2 ^ (32 - self.old.generator.degree) }
    {
        self.value = top >> (32 - self.generator.degree());
    }
}
