// Stepping by a product that needs no reduction.
ghost use Rattle.std.specs.Prelude.{◌≡◌, ℕ, ◌-◌, ◌*◌, ◌^◌, ◌<◌, ◌≤◌};
ghost use Rattle.poly.specs.Poly.{clmul};
ghost use Rattle.engine.specs.Feed.{fed};

use crate::register::Register;

// The product of a byte and a low part. The mask is all ones where the bit of a is set.
pub(crate) fn product(a: u32, low: u32) -> u32
    requires { (a < 256) × (low < 2 ^ 25) }
    ensures { result ≡ clmul a low }
{
    let mut sum = 0;
    for i in 0..8u8 {
        let mask = 0u32.wrapping_sub((a >> i) & 1);
        sum ^= (low << i) & mask;
    }
    sum
}

impl Register {
    // One byte more.
    pub(crate) fn multiply(&mut self, q: u8)
        requires { self.old.generator.low < 2 ^ (self.old.generator.degree - 7) }
        ensures generator { self.new.generator ≡ self.old.generator }
        ensures fed { self.new.value ≡ fed self.old.generator.degree self.old.generator.low self.old.value q }
    {
        self.value = self.moved_up() ^ product(self.top_byte(q), self.generator.low());
    }
}
