// How the fast engine steps.
ghost use Rattle.std.specs.Prelude.{◌≡◌};
ghost use Rattle.engine.specs.Meaning.{carries_short};
ghost use Rattle.std.proofs.Common.{rules, arith};

use crate::engine::Engine;
use crate::fast::Fast;
use crate::register::Register;
use answer::fault::Fault;

impl Engine for Fast {
    ghost degree_of = { λ e. e.register.generator.degree };

    ghost low_of = { λ e. e.register.generator.low };

    ghost register_of = { λ e. e.register.value };

    ghost carries_of = { λ _. carries_short };

    ghost sound = { first_of (Prim.search rules, Prim.grind (arith, Self.row.coded.inj)) };

    // X^8 + 1
    fn new() -> Self
        ensures register { result.register.value ≡ 0 }
        ensures degree { result.register.generator.degree ≡ 8 }
        ensures low { result.register.generator.low ≡ 1 }
    {
        Fast {
            register: Register::new(),
        }
    }

    fn set(&mut self, degree: u8, low: u32) -> Result<(), Fault> {
        let mut register = self.register;
        register.set(degree, low)?;
        if low >> (degree - 7) != 0 {
            return Err(Fault::NotCarried);
        }
        self.register = register;
        Ok(())
    }

    fn clear(&mut self) {
        self.register.clear();
    }

    fn feed(&mut self, q: u8) {
        self.register.multiply(q);
    }

    fn value(&self) -> u32 {
        self.register.value()
    }
}
