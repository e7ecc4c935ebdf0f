// Kinds 1 and 2 over every engine.
use code::bank::Bank;
use code::catalogue::{NAMES, published};
use code::kind::Kind;
use crc::crc_kind::Crc;
use crc::parity_kind::CrcParity;
use engine::engine::Engine;
use engine::table::Table;
use listing::asked::{Asked, Question};
use listing::engines::by_engines;
use std::io;

/// The check of one message under each published code of kinds 1 and 2.
pub(crate) fn kinds_over(rt: &impl Print, engines: &[&dyn Asked]) -> io::Result<()> {
    println!(rt; "\nKinds over engines")?;
    let over_engine = Bank::new(Crc::new(Table::new()), CrcParity::new(Table::new()));
    for name in &NAMES {
        if let Some(d) = published(name) {
            if over_engine.serves(d.kind) {
                print!(rt; "  {name}: 313233343536373839")?;
                by_engines(rt, engines, "has", Question::Check(d, b"123456789"))?;
            }
        }
    }
    Ok(())
}
