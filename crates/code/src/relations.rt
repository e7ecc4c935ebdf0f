// What matching and meaning the same are as relations, as the contract of a function.
ghost use Rattle.std.specs.Prelude.{◌≡◌};
ghost use Rattle.code.specs.Compared.{SameMatches, MatchesReflexive, MatchesSymmetric, MatchesNotTransitive, MatchesSame, SameReflexive, SameSymmetric, SameTransitive};

// To mean the same is an equivalence, and implies to match. To match is reflexive and symmetric, and is kept where one of the two
// gives way to a kind that means the same; it is not transitive, since where one of two refuses nothing is asked.
pub fn comparing_is_sound() -> u8
    ensures answer { result ≡ 0 }
    ensures implies { SameMatches }
    ensures matches_reflexive { MatchesReflexive }
    ensures matches_symmetric { MatchesSymmetric }
    ensures not_transitive { MatchesNotTransitive }
    ensures matches_same { MatchesSame }
    ensures same_reflexive { SameReflexive }
    ensures same_symmetric { SameSymmetric }
    ensures same_transitive { SameTransitive }
{
    // A number: of () every body is right, and so no wrong one could be told from this.
    0
}
