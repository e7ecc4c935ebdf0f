// How kinds compare by their answers, as the contract of a function.
ghost use Rattle.std.specs.Prelude.{◌≡◌};
ghost use Rattle.code.specs.Compared.{JoinedAnswers, JoinedMatches, JoinedMeansTheSame, CrcMatches, CrcMeansTheSame, ParityMatches, ParityMeansTheSame};

// A bank answers as its left kind where that serves the number, and as its right one elsewhere; so banks of matching kinds match,
// and banks of kinds that mean the same mean the same. A kind matches itself over any two engines, and means the same over two that
// carry the same generators.
pub fn kinds_compare() -> u8
    ensures answer { result ≡ 0 }
    ensures bank { JoinedAnswers }
    ensures matching { JoinedMatches }
    ensures same { JoinedMeansTheSame }
    ensures crc { CrcMatches }
    ensures crc_same { CrcMeansTheSame }
    ensures parity { ParityMatches }
    ensures parity_same { ParityMeansTheSame }
{
    // A number: of () every body is right, and so no wrong one could be told from this.
    0
}
