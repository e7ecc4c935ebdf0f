// How the bitwise engine steps.
ghost use Rattle.std.specs.Prelude.{◌≡◌};
ghost use Rattle.engine.specs.Meaning.{carries_all};
ghost use Rattle.std.proofs.Common.{rules, arith};

use crate::bitwise::Bitwise;
use crate::engine::Engine;
use crate::register::Register;
use answer::fault::Fault;

impl Engine for Bitwise {
    ghost degree_of = { λ e. e.register.generator.degree };

    ghost low_of = { λ e. e.register.generator.low };

    ghost register_of = { λ e. e.register.value };

    ghost carries_of = { λ _. carries_all };

    ghost sound = { first_of (Prim.search rules, Prim.grind (arith, Self.row.coded.inj)) };

    // X^8 + 1
    fn new() -> Self
        ensures register { result.register.value ≡ 0 }
        ensures degree { result.register.generator.degree ≡ 8 }
        ensures low { result.register.generator.low ≡ 1 }
    {
        Bitwise {
            register: Register::new(),
        }
    }

    fn set(&mut self, degree: u8, low: u32) -> Result<(), Fault> {
        self.register.set(degree, low)
    }

    fn clear(&mut self) {
        self.register.clear();
    }

    fn feed(&mut self, q: u8) {
        self.register.feed_bits(q);
    }

    fn value(&self) -> u32 {
        self.register.value()
    }
}
