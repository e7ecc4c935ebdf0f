// How the table engine steps. Its table is built at set, and kept where the generator is the same.
ghost use Rattle.std.specs.Prelude.{◌≡◌};
ghost use Rattle.engine.specs.Meaning.{carries_all};
ghost use Rattle.std.proofs.Common.{rules, arith};

use crate::engine::Engine;
use crate::filling::tabulate;
use crate::register::Register;
use crate::table::Table;
use answer::fault::Fault;

impl Engine for Table {
    ghost degree_of = { λ e. e.register.generator.degree };

    ghost low_of = { λ e. e.register.generator.low };

    ghost register_of = { λ e. e.register.value };

    ghost carries_of = { λ _. carries_all };

    ghost sound = { first_of (Prim.search rules, Prim.grind (arith, Self.row.coded.inj)) };

    // X^8 + 1
    fn new() -> Self
        ensures register { result.register.value ≡ 0 }
        ensures degree { result.register.generator.degree ≡ 8 }
        ensures low { result.register.generator.low ≡ 1 }
    {
        let register = Register::new();
        let mut entries = [0; 256];
        tabulate(&mut entries, register.generator());
        Table { register, entries }
    }

    // The generator that is held is asked for by its numbers: to make another and compare by `==` takes 2.7 times as long. What this shares with the
    // slicing engine's is `Register::set`: what is left is that question and the tables of each, and no plainer in one function.
    fn set(&mut self, degree: u8, low: u32) -> Result<(), Fault> {
        let held = self.register.generator();
        if degree == held.degree() && low == held.low() {
            self.register.clear();
            return Ok(());
        }
        let mut register = self.register;
        register.set(degree, low)?;
        tabulate(&mut self.entries, register.generator());
        self.register = register;
        Ok(())
    }

    fn clear(&mut self) {
        self.register.clear();
    }

    fn feed(&mut self, q: u8) {
        self.register.look_up(&self.entries, q);
    }

    fn value(&self) -> u32 {
        self.register.value()
    }

    // By a copy of the register, which stays out of memory from byte to byte.
    fn feed_all(&mut self, bytes: &[u8]) {
        let mut register = self.register;
        register.look_up_all(&self.entries, bytes);
        self.register = register;
    }
}
