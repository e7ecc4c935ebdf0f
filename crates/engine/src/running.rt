// A running check: begun on an engine, fed pieces, finished once. It owns its engine, and gives it back.
ghost use Rattle.std.specs.Prelude.{◌≡◌, ℕ, []};
ghost use Rattle.engine.specs.Feed.{fed_all};
ghost use Rattle.engine.specs.Pieces.{Holds, Carries-on, flat};
ghost use Rattle.poly.specs.Poly.{remainder};

use crate::engine::Engine;

// It is neither cloned nor copied nor let go: `finish` is its only end.
pub struct RunningCheck<E> {
    engine: E,
}

impl<E: Engine> RunningCheck<E> {
    // Makes the register zero: the remainder of nothing.
    pub fn begin(engine: E) -> RunningCheck<E>
        ensures degree { E.degree_of result.engine ≡ E.degree_of engine }
        ensures low { E.low_of result.engine ≡ E.low_of engine }
        ensures register { E.register_of result.engine ≡ 0 }
        ensures carries { E.carries_of result.engine ≡ E.carries_of engine }
        ensures nothing { Holds (E.degree_of engine) (E.low_of engine) (E.register_of result.engine) [] }
    {
        let mut engine = engine;
        engine.clear();
        RunningCheck { engine }
    }

    // Feeds a piece after what was fed before.
    pub fn feed(&mut self, piece: &[u8])
        ensures degree { E.degree_of self.new.engine ≡ E.degree_of self.old.engine }
        ensures low { E.low_of self.new.engine ≡ E.low_of self.old.engine }
        ensures register { E.register_of self.new.engine ≡ fed_all (E.degree_of self.old.engine) (E.low_of self.old.engine) (E.register_of self.old.engine) piece.now }
        ensures carries { E.carries_of self.new.engine ≡ E.carries_of self.old.engine }
        ensures joined { Carries-on (E.degree_of self.old.engine) (E.low_of self.old.engine) (E.register_of self.old.engine) (E.register_of self.new.engine) piece.now }
    {
        self.engine.feed_all(piece);
    }

    // Answers the register, and gives the engine back as it is.
    pub fn finish(self) -> (u32, E)
        ensures value { result.0 ≡ E.register_of self.engine }
        ensures engine { result.1 ≡ self.engine }
    {
        let RunningCheck { engine } = self;
        (engine.value(), engine)
    }
}

// The remainder of the joined pieces, by one running check; the engine comes back with its generator, and the answer in its register.
pub fn check_pieces<E: Engine>(engine: E, pieces: &[&[u8]]) -> (u32, E)
    ensures value { result.0 ≡ remainder (E.degree_of engine) (E.low_of engine) (flat pieces.now) }
    ensures degree { E.degree_of result.1 ≡ E.degree_of engine }
    ensures low { E.low_of result.1 ≡ E.low_of engine }
    ensures register { E.register_of result.1 ≡ result.0 }
    ensures carries { E.carries_of result.1 ≡ E.carries_of engine }
{
    let mut check = RunningCheck::begin(engine);
    for piece in pieces {
        check.feed(piece);
    }
    check.finish()
}
