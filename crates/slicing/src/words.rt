// Four bytes at a time, modulo X^(32 - degree) times the generator, of which the tables are.
ghost use Rattle.std.specs.Prelude.{◌≡◌, ◌+◌, ◌-◌, ◌*◌, ◌^◌, ◌≤◌, slice_index};
ghost use Rattle.poly.specs.Poly.{rem};
ghost use Rattle.slicing.specs.Tables.{word_of};

use crate::slicing::Slicing;

impl Slicing {
    // The remainder of a word × X^(32 + 8k): the sum of an entry for each byte, the first from table k + 3.
    pub(crate) fn look_up_word(&self, k: usize, word: [u8; 4]) -> u32
        requires { k ≤ 12 }
        ensures { result ≡ rem 32 (self.now.register.generator.low * 2 ^ (32 - self.now.register.generator.degree)) (word_of (slice_index word 0) (slice_index word 1) (slice_index word 2) (slice_index word 3) * 2 ^ (32 + 8 * k)) }
    {
        let [a, b, c, d] = word;
        (self.tables[k + 3][a as usize] ^ self.tables[k + 2][b as usize])
            ^ (self.tables[k + 1][c as usize] ^ self.tables[k][d as usize])
    }
}
