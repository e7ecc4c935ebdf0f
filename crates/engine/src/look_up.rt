// Stepping by a table: entry a is the remainder of a × X^degree.
ghost use Rattle.std.specs.Prelude.{◌≡◌, ℕ};
ghost use Rattle.engine.specs.Feed.{fed, fed_all};
ghost use Rattle.engine.specs.Tables.{Entries};

use crate::register::Register;

impl Register {
    // One byte more. The index comes first, since the look-up waits for it.
    pub(crate) fn look_up(&mut self, entries: &[u32; 256], q: u8)
        requires { Entries self.old.generator.degree self.old.generator.low self.old.generator.degree entries.now }
        ensures generator { self.new.generator ≡ self.old.generator }
        ensures fed { self.new.value ≡ fed self.old.generator.degree self.old.generator.low self.old.value q }
    {
        let top = self.top_byte(q);
        self.value = self.moved_up() ^ entries[top as usize];
    }

    // One byte after the other: the loop that the trait provides, but of the register alone, which the ready-made engine makes once for a string.
    pub(crate) fn look_up_all(&mut self, entries: &[u32; 256], bytes: &[u8])
        requires { Entries self.old.generator.degree self.old.generator.low self.old.generator.degree entries.now }
        ensures generator { self.new.generator ≡ self.old.generator }
        ensures fed { self.new.value ≡ fed_all self.old.generator.degree self.old.generator.low self.old.value bytes.now }
    {
        for b in bytes {
            self.look_up(entries, *b);
        }
    }
}
