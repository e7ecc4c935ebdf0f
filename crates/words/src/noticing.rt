// Which changes the codes notice, as the contract of a function.
ghost use Rattle.std.specs.Prelude.{◌≡◌};
ghost use Rattle.words.specs.Words.{Crc-notices, Crc-even_notices, CrcParity-notices, WeightedSum-notices};

// No two words of a CRC by a generator of degree h differ by a burst of at most h bits or by at most two bits, and where the
// generator has an even number of terms, not by three bits either, nor by any odd number of bits. With a parity bit they do not
// differ by a burst of at most h + 1 bits, at most three bits, or any odd number; with a weighted sum not by a burst of at most h
// bits, at most three bits, or any odd number.
pub fn codes_notice() -> u8
    ensures answer { result ≡ 0 }
    ensures crc { Crc-notices }
    ensures even { Crc-even_notices }
    ensures parity { CrcParity-notices }
    ensures weighted { WeightedSum-notices }
{
    // A number: of () every body is right, and so no wrong one could be told from this.
    0
}
