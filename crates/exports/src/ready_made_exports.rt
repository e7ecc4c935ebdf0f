// The ready-made engine for C.
ghost use Rattle.std.specs.Prelude.{◌≡◌};
ghost use Rattle.answer.specs.Refusal.{number_of, if_ok};
ghost use Rattle.engine.specs.Meaning.{carries_ieee};
ghost use Rattle.exports.specs.Calls.{setting};
ghost use Rattle.poly.specs.Poly.{remainder};

use crate::calls::{remainder_by_bytes, remainder_of, set_to};
use engine::engine::Engine;
use engine::ready_made::ReadyMade;

// A register of zero; the generator is always X^32 + 04C11DB7.
#[unsafe(no_mangle)]
pub extern "C" fn pukhtamo_ready_made_new() -> ReadyMade
    ensures { result.register ≡ 0 }
{
    ReadyMade::new()
}

// Takes up X^degree + low with a register of zero, and answers 0; or the number of the refusal, which alters nothing.
#[unsafe(no_mangle)]
pub extern "C" fn pukhtamo_ready_made_set(engine: &mut ReadyMade, degree: u8, low: u32) -> u8
    ensures answer { result ≡ number_of (setting (carries_ieee degree low) degree low) }
    ensures register { engine.new.register ≡ if_ok (setting (carries_ieee degree low) degree low) 0 engine.old.register }
{
    set_to(engine, degree, low)
}

// The remainder of the message by the generator that the engine holds; the register is then that remainder.
#[unsafe(no_mangle)]
pub extern "C" fn pukhtamo_ready_made_remainder(engine: &mut ReadyMade, message: &[u8]) -> u32
    ensures answer { result ≡ remainder 32 0x04C11DB7 message.now }
    ensures register { engine.new.register ≡ result }
{
    remainder_of(engine, message)
}

// The same, fed byte by byte.
#[unsafe(no_mangle)]
pub extern "C" fn pukhtamo_ready_made_remainder_by_bytes(
    engine: &mut ReadyMade,
    message: &[u8],
) -> u32
    ensures answer { result ≡ remainder 32 0x04C11DB7 message.now }
    ensures register { engine.new.register ≡ result }
{
    remainder_by_bytes(engine, message)
}
