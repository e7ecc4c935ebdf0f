// The table engine for C.
ghost use Rattle.std.specs.Prelude.{◌≡◌};
ghost use Rattle.answer.specs.Refusal.{number_of, if_ok};
ghost use Rattle.engine.specs.Meaning.{carries_all};
ghost use Rattle.exports.specs.Calls.{setting};
ghost use Rattle.poly.specs.Poly.{remainder};

use crate::calls::{remainder_by_bytes, remainder_of, set_to};
use engine::engine::Engine;
use engine::table::Table;

// X^8 + 1 with a register of zero.
#[unsafe(no_mangle)]
pub extern "C" fn pukhtamo_table_new() -> Table
    ensures register { result.register.value ≡ 0 }
    ensures degree { result.register.generator.degree ≡ 8 }
    ensures low { result.register.generator.low ≡ 1 }
{
    Table::new()
}

// Takes up X^degree + low with a register of zero, and answers 0; or the number of the refusal, which alters nothing.
#[unsafe(no_mangle)]
pub extern "C" fn pukhtamo_table_set(engine: &mut Table, degree: u8, low: u32) -> u8
    ensures answer { result ≡ number_of (setting (carries_all degree low) degree low) }
    ensures degree { engine.new.register.generator.degree ≡ if_ok (setting (carries_all degree low) degree low) degree engine.old.register.generator.degree }
    ensures low { engine.new.register.generator.low ≡ if_ok (setting (carries_all degree low) degree low) low engine.old.register.generator.low }
    ensures register { engine.new.register.value ≡ if_ok (setting (carries_all degree low) degree low) 0 engine.old.register.value }
{
    set_to(engine, degree, low)
}

// The remainder of the message by the generator that the engine holds; the register is then that remainder.
#[unsafe(no_mangle)]
pub extern "C" fn pukhtamo_table_remainder(engine: &mut Table, message: &[u8]) -> u32
    ensures answer { result ≡ remainder engine.old.register.generator.degree engine.old.register.generator.low message.now }
    ensures degree { engine.new.register.generator.degree ≡ engine.old.register.generator.degree }
    ensures low { engine.new.register.generator.low ≡ engine.old.register.generator.low }
    ensures register { engine.new.register.value ≡ result }
{
    remainder_of(engine, message)
}

// The same, fed byte by byte.
#[unsafe(no_mangle)]
pub extern "C" fn pukhtamo_table_remainder_by_bytes(engine: &mut Table, message: &[u8]) -> u32
    ensures answer { result ≡ remainder engine.old.register.generator.degree engine.old.register.generator.low message.now }
    ensures degree { engine.new.register.generator.degree ≡ engine.old.register.generator.degree }
    ensures low { engine.new.register.generator.low ≡ engine.old.register.generator.low }
    ensures register { engine.new.register.value ≡ result }
{
    remainder_by_bytes(engine, message)
}
