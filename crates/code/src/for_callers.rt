// How kinds compare at all that a caller can pass, and what these relations are, as contracts of functions.
ghost use Rattle.std.specs.Prelude.{◌≡◌};
ghost use Rattle.code.specs.ForCallers.{JoinedMatchesForCallers, JoinedMeansTheSameForCallers, CrcMatchesForCallers, CrcMeansTheSameForCallers, ParityMatchesForCallers, ParityMeansTheSameForCallers, SameMatchesForCallers, MatchesReflexiveForCallers, MatchesSymmetricForCallers, MatchesNotTransitiveForCallers, MatchesSameForCallers, SameReflexiveForCallers, SameSymmetricForCallers, SameTransitiveForCallers};

// For callers too banks of matching kinds match, and banks of kinds that mean the same mean the same; a kind matches itself over any
// two engines, and means the same over two that carry the same generators: the engines are compared at generators alone.
pub fn callers_compare() -> u8
    ensures answer { result ≡ 0 }
    ensures matching { JoinedMatchesForCallers }
    ensures same { JoinedMeansTheSameForCallers }
    ensures crc { CrcMatchesForCallers }
    ensures crc_same { CrcMeansTheSameForCallers }
    ensures parity { ParityMatchesForCallers }
    ensures parity_same { ParityMeansTheSameForCallers }
{
    // A number: of () every body is right, and so no wrong one could be told from this.
    0 // of banks and of kinds over engines
}

// To mean the same for callers is an equivalence, and implies to match for callers. To match for callers is reflexive and symmetric,
// and is kept where one of the two gives way to a kind that means the same for callers; it is not transitive, since where one of two
// refuses nothing is asked.
pub fn callers_comparing_is_sound() -> u8
    ensures answer { result ≡ 0 }
    ensures implies { SameMatchesForCallers }
    ensures matches_reflexive { MatchesReflexiveForCallers }
    ensures matches_symmetric { MatchesSymmetricForCallers }
    ensures not_transitive { MatchesNotTransitiveForCallers }
    ensures matches_same { MatchesSameForCallers }
    ensures same_reflexive { SameReflexiveForCallers }
    ensures same_symmetric { SameSymmetricForCallers }
    ensures same_transitive { SameTransitiveForCallers }
{
    // A number, as above.
    0 // of the two relations
}
