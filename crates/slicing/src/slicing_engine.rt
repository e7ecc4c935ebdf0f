// How the slicing engine steps. Its tables are built at set, and kept where the generator is the same.
ghost use Rattle.std.specs.Prelude.{◌≡◌};
ghost use Rattle.engine.specs.Meaning.{carries_all};
ghost use Rattle.std.proofs.Common.{rules, arith};

use crate::slicing::Slicing;
use crate::tables::tabulate_all;
use answer::fault::Fault;
use engine::engine::Engine;
use engine::register::Register;

impl Engine for Slicing {
    ghost degree_of = { λ e. e.register.generator.degree };

    ghost low_of = { λ e. e.register.generator.low };

    ghost register_of = { λ e. e.register.value };

    ghost carries_of = { λ _. carries_all };

    ghost sound = { first_of (Prim.search rules, Prim.grind (arith, Self.row.coded.inj)) };

    // X^8 + 1
    fn new() -> Self
        ensures register { result.register.value ≡ 0 }
        ensures degree { result.register.generator.degree ≡ 8 }
        ensures low { result.register.generator.low ≡ 1 }
    {
        let register = Register::new();
        let mut tables = [[0; 256]; 16];
        tabulate_all(&mut tables, register.generator());
        Slicing { register, tables }
    }

    // The generator that is held is asked for by its numbers: to make another and compare by `==` takes 2.6 times as long. What this shares with the
    // table engine's is `Register::set`: what is left is that question and the tables of each, and no plainer in one function.
    fn set(&mut self, degree: u8, low: u32) -> Result<(), Fault> {
        let held = self.register.generator();
        if degree == held.degree() && low == held.low() {
            self.register.clear();
            return Ok(());
        }
        let mut register = self.register;
        register.set(degree, low)?;
        tabulate_all(&mut self.tables, register.generator());
        self.register = register;
        Ok(())
    }

    fn clear(&mut self) {
        self.register.clear();
    }

    // A byte is a string of one.
    fn feed(&mut self, q: u8) {
        self.feed_all(&[q]);
    }

    fn value(&self) -> u32 {
        self.register.value()
    }

    // The register stands at the top of 32 bits while it is fed.
    fn feed_all(&mut self, bytes: &[u8]) {
        let top = self.after_string(self.register.at_top(), bytes);
        self.register.set_from_top(top);
    }
}
