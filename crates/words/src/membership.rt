// Which checks make a message a word, as the contract of a function.
ghost use Rattle.std.specs.Prelude.{◌≡◌};
ghost use Rattle.words.specs.Words.{Crc-words, CrcParity-words, Weighted-sums};

// A message and a check are a word exactly if the check is made of the remainders.
pub fn checks_make_words() -> u8
    ensures answer { result ≡ 0 }
    ensures crc { Crc-words }
    ensures parity { CrcParity-words }
    ensures weighted { Weighted-sums }
{
    // A number: of () every body is right, and so no wrong one could be told from this.
    0
}
