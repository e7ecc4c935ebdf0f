// Stepping by the tables with a register that stands at the top of 32 bits, modulo X^(32 - degree) times the generator.
ghost use Rattle.std.specs.Prelude.{◌≡◌, ◌-◌, ◌*◌, ◌^◌};
ghost use Rattle.engine.specs.Feed.{fed, fed_all};

use crate::slicing::Slicing;

impl Slicing {
    // The register after one byte. The index is not cut to a byte on the way, which every look-up would wait for.
    fn after_byte(&self, register: u32, q: u8) -> u32
        ensures { result ≡ fed 32 (self.now.register.generator.low * 2 ^ (32 - self.now.register.generator.degree)) register q }
    {
        (register << 8) ^ self.tables[0][(register >> 24) as usize ^ usize::from(q)]
    }

    // The register after sixteen bytes. What waits for the register comes last.
    fn after_block(&self, register: u32, block: &[u8; 16]) -> u32
        ensures { result ≡ fed_all 32 (self.now.register.generator.low * 2 ^ (32 - self.now.register.generator.degree)) register block.now }
    {
        let (words, _) = block.as_chunks::<4>();
        let free = self.look_up_word(8, words[1])
            ^ self.look_up_word(4, words[2])
            ^ self.look_up_word(0, words[3]);
        let first = u32::from_be_bytes(words[0]) ^ register;
        free ^ self.look_up_word(12, first.to_be_bytes())
    }

    // The register after a string: its blocks of sixteen bytes, and the rest byte by byte.
    pub(crate) fn after_string(&self, register: u32, bytes: &[u8]) -> u32
        ensures { result ≡ fed_all 32 (self.now.register.generator.low * 2 ^ (32 - self.now.register.generator.degree)) register bytes.now }
    {
        let (blocks, rest) = bytes.as_chunks::<16>();
        let mut r = register;
        for block in blocks {
            r = self.after_block(r, block);
        }
        for b in rest {
            r = self.after_byte(r, *b);
        }
        r
    }
}
