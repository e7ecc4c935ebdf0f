// The remainder of a message by any engine, and that engines agree.
ghost use Rattle.std.specs.Prelude.{◌≡◌, ℕ};
ghost use Rattle.answer.specs.Refusal.{read, if_ok};
ghost use Rattle.answer.specs.Rules.{by_rules};
ghost use Rattle.engine.specs.Meaning.{Left};
ghost use Rattle.engine.specs.Rules.{set_rules};
ghost use Rattle.poly.specs.Poly.{remainder};

use crate::engine::Engine;
use answer::fault::Fault;

// Sets the engine to X^degree + low, feeds it the message and answers the remainder; a refusal alters nothing.
pub fn remainder_by<E: Engine>(
    engine: &mut E,
    degree: u8,
    low: u32,
    message: &[u8],
) -> Result<u32, Fault>
    ensures answer { read result ≡ by_rules (set_rules (E.carries_of engine.old degree low) degree low) (remainder degree low message.now) }
    ensures degree { E.degree_of engine.new ≡ if_ok result degree (E.degree_of engine.old) }
    ensures low { E.low_of engine.new ≡ if_ok result low (E.low_of engine.old) }
    ensures register { E.register_of engine.new ≡ if_ok result (remainder degree low message.now) (E.register_of engine.old) }
    ensures carries { E.carries_of engine.new ≡ E.carries_of engine.old }
{
    engine.set(degree, low)?;
    engine.feed_all(message);
    Ok(engine.value())
}

// The remainder by two engines: where both carry the generator, or both do not, they answer the same.
pub fn compare<A: Engine, B: Engine>(
    a: &mut A,
    b: &mut B,
    degree: u8,
    low: u32,
    message: &[u8],
) -> (Result<u32, Fault>, Result<u32, Fault>)
    ensures first { read result.0 ≡ by_rules (set_rules (A.Engine.carries_of a.old degree low) degree low) (remainder degree low message.now) }
    ensures second { read result.1 ≡ by_rules (set_rules (B.Engine.carries_of b.old degree low) degree low) (remainder degree low message.now) }
    ensures agree { A.Engine.carries_of a.old degree low ≡ B.Engine.carries_of b.old degree low → read result.0 ≡ read result.1 }
    ensures a { Left (if_ok result.0) degree low (remainder degree low message.now) (A.Engine.degree_of a.old) (A.Engine.low_of a.old) (A.Engine.register_of a.old) (A.Engine.carries_of a.old) (A.Engine.degree_of a.new) (A.Engine.low_of a.new) (A.Engine.register_of a.new) (A.Engine.carries_of a.new) }
    ensures b { Left (if_ok result.1) degree low (remainder degree low message.now) (B.Engine.degree_of b.old) (B.Engine.low_of b.old) (B.Engine.register_of b.old) (B.Engine.carries_of b.old) (B.Engine.degree_of b.new) (B.Engine.low_of b.new) (B.Engine.register_of b.new) (B.Engine.carries_of b.new) }
{
    (
        remainder_by(a, degree, low, message),
        remainder_by(b, degree, low, message),
    )
}
