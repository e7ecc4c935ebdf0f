// How the ready-made engine steps.
ghost use Rattle.std.specs.Prelude.{◌≡◌};
ghost use Rattle.engine.specs.Meaning.{carries_ieee};
ghost use Rattle.std.proofs.Common.{rules, arith};

use crate::engine::Engine;
use crate::ieee::{ieee, numbers};
use crate::ready_made::ReadyMade;
use crate::register::Register;
use crate::stepping::generator_of;
use answer::fault::Fault;

impl ReadyMade {
    // The register with the generator, which the engine does not store.
    fn with_generator(self) -> Register
        ensures degree { result.generator.degree ≡ 32 }
        ensures low { result.generator.low ≡ 0x04C11DB7 }
        ensures value { result.value ≡ self.register }
    {
        Register {
            generator: ieee(),
            value: self.register,
        }
    }
}

impl Engine for ReadyMade {
    ghost degree_of = { λ _. 32 };

    ghost low_of = { λ _. 0x04C11DB7 };

    ghost register_of = { λ e. e.register };

    ghost carries_of = { λ _. carries_ieee };

    ghost sound = { first_of (Prim.search rules, Prim.grind (arith, Self.row.coded.inj)) };

    fn new() -> Self {
        ReadyMade { register: 0 }
    }

    fn set(&mut self, degree: u8, low: u32) -> Result<(), Fault> {
        if generator_of(degree, low)? != ieee() {
            return Err(Fault::NotCarried);
        }
        self.register = 0;
        Ok(())
    }

    fn clear(&mut self) {
        self.register = 0;
    }

    fn feed(&mut self, q: u8) {
        let mut register = self.with_generator();
        register.look_up(numbers(), q);
        self.register = register.value();
    }

    fn value(&self) -> u32 {
        self.register
    }

    fn feed_all(&mut self, bytes: &[u8]) {
        let mut register = self.with_generator();
        register.look_up_all(numbers(), bytes);
        self.register = register.value();
    }
}
