// What the exports do, for any engine.
// The four exports of each engine are written out: for the C interface an `extern "C"` function takes no type parameter, and a macro writes no
// clause.
ghost use Rattle.std.specs.Prelude.{◌≡◌, ℕ};
ghost use Rattle.answer.specs.Refusal.{number_of, if_ok};
ghost use Rattle.exports.specs.Calls.{setting};
ghost use Rattle.poly.specs.Poly.{remainder};

use answer::reading::number_of;
use engine::engine::Engine;

// Sets the engine to X^degree + low, and answers 0 or the number of the refusal, which alters nothing. A number: so the C interface has it.
pub(crate) fn set_to<E: Engine>(engine: &mut E, degree: u8, low: u32) -> u8
    ensures answer { result ≡ number_of (setting (E.carries_of engine.old degree low) degree low) }
    ensures degree { E.degree_of engine.new ≡ if_ok (setting (E.carries_of engine.old degree low) degree low) degree (E.degree_of engine.old) }
    ensures low { E.low_of engine.new ≡ if_ok (setting (E.carries_of engine.old degree low) degree low) low (E.low_of engine.old) }
    ensures register { E.register_of engine.new ≡ if_ok (setting (E.carries_of engine.old degree low) degree low) 0 (E.register_of engine.old) }
{
    number_of(&engine.set(degree, low))
}

// The remainder of a message by the generator that the engine holds, fed at once.
pub(crate) fn remainder_of<E: Engine>(engine: &mut E, message: &[u8]) -> u32
    ensures answer { result ≡ remainder (E.degree_of engine.old) (E.low_of engine.old) message.now }
    ensures degree { E.degree_of engine.new ≡ E.degree_of engine.old }
    ensures low { E.low_of engine.new ≡ E.low_of engine.old }
    ensures register { E.register_of engine.new ≡ result }
{
    engine.clear();
    engine.feed_all(message);
    engine.value()
}

// The same, fed byte by byte.
pub(crate) fn remainder_by_bytes<E: Engine>(engine: &mut E, message: &[u8]) -> u32
    ensures answer { result ≡ remainder (E.degree_of engine.old) (E.low_of engine.old) message.now }
    ensures degree { E.degree_of engine.new ≡ E.degree_of engine.old }
    ensures low { E.low_of engine.new ≡ E.low_of engine.old }
    ensures register { E.register_of engine.new ≡ result }
{
    engine.clear();
    for b in message {
        engine.feed(*b);
    }
    engine.value()
}
