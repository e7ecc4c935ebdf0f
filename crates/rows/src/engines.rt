// The refusals of engines and of the period call, and what a refusal leaves.
use crate::refusal::{Refusal, refusal_of};
use answer::fault::Layer;
use answer::reading::number_of;
use engine::bitwise::Bitwise;
use engine::engine::Engine;
use engine::fast::Fast;
use engine::ready_made::ReadyMade;
use engine::remainder::remainder_by;
use engine::table::Table;
use poly::period::period;
use std::process::Abort;
use std::test::Fail;

// A degree and a low part, and the refusal where there is one.
type Row = (u8, u32, Option<Refusal>);

// a degree out of range, and a low part too long, even, or not carried by the engine at hand
const SET: [Row; 6] = [
    (7, 0x07, Some((12, Layer::Engine, 3))),
    (33, 0x07, Some((12, Layer::Engine, 3))),
    (8, 0x06, Some((13, Layer::Engine, 4))),
    (8, 0x0107, Some((13, Layer::Engine, 4))),
    (16, 0x8005, Some((15, Layer::Engine, 4))),
    (16, 0x011B, None),
];

const PERIOD: [Row; 5] = [
    (1, 0x01, Some((12, Layer::Engine, 3))),
    (33, 0x01, Some((12, Layer::Engine, 3))),
    (8, 0x06, Some((13, Layer::Engine, 4))),
    (8, 0x0107, Some((13, Layer::Engine, 4))),
    (8, 0x07, None),
];

// A set with a register that is not zero: it is zero afterwards, or as it was where the set is refused.
fn set_row<E: Engine>(rt: &impl Abort, engine: &mut E, row: Row) -> Result<(), Fail> {
    let (degree, low, refusal) = row;
    engine.feed(1);
    let before = engine.value();
    let result = engine.set(degree, low);
    let (number, left) = match refusal {
        Some((number, _, _)) => (number, before),
        None => (0, 0),
    };
    assert_eq!(rt; number_of(&result), number);
    assert_eq!(rt; engine.value(), left);
    assert_eq!(rt; refusal_of(result), refusal);
    Ok(())
}

#[test]
fn set_refuses(rt: HostRuntime) -> Result<(), Fail> {
    let mut fast = Fast::new();
    for row in &SET {
        set_row(&rt, &mut fast, *row)?;
    }
    Ok(())
}

#[test]
fn period_refuses(rt: HostRuntime) {
    for (degree, low, refusal) in &PERIOD {
        assert_eq!(rt; refusal_of(period(*degree, *low)), *refusal);
    }
}

// What new engines hold: fed 01 they leave the low part.
#[test]
fn new_engines_hold(rt: HostRuntime) {
    let mut bitwise = Bitwise::new();
    let mut table = Table::new();
    let mut fast = Fast::new();
    let mut ready_made = ReadyMade::new();
    bitwise.feed(1);
    table.feed(1);
    fast.feed(1);
    ready_made.feed(1);
    assert_eq!(rt; bitwise.value(), 1);
    assert_eq!(rt; table.value(), 1);
    assert_eq!(rt; fast.value(), 1);
    assert_eq!(rt; ready_made.value(), 0x04C1_1DB7);
}

// Degree, low part, message, remainder.
const SUMS: [(u8, u32, &[u8], u32); 6] = [
    (8, 0x07, b"\x01", 0x07),
    (8, 0x07, b"\x80", 0x89),
    (16, 0x1021, b"\x01", 0x1021),
    (16, 0x1021, b"\x80", 0x9188),
    (16, 0x1021, b"123456789", 0x31C3),
    (32, 0x04C1_1DB7, b"123456789", 0x89A1_897F),
];

#[test]
fn small_sums(rt: HostRuntime) -> Result<(), Fail> {
    let mut table = Table::new();
    for (degree, low, message, leaves) in &SUMS {
        assert_eq!(rt; remainder_by(&mut table, *degree, *low, message)?, *leaves);
    }
    Ok(())
}
