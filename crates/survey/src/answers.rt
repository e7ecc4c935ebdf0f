// Every refusal of a line and of a station, through the call that gives it.
use crate::answer_rows::*;
use answer::fault::Fault;
use code::catalogue::{ATM_HEC, CRC_16};
use code::description::Description;
use code::kind::Kind;
use console::line::{Line, line_of};
use crc::crc_kind::Crc;
use engine::engine::Engine;
use engine::fast::Fast;
use engine::table::Table;
use kinds::three::{Kinds, three_kinds};
use listing::frames;
use listing::refusals::fault_or;
use station::station::Station;
use std::io;

// Lines that are none, and the calls of the tables at one station; at last its book is full.
pub(crate) fn answers(rt: &impl Print) -> io::Result<()> {
    let mut station = Station::new(three_kinds::<Table>());
    lines(rt)?;
    println!(rt; "\nAnswers at a station")?;
    changes(rt, &mut station)?;
    frames(rt, &mut station)?;
    filled(rt, &mut station)?;
    let mut fast = Station::new(Crc::new(Fast::new()));
    said(
        rt,
        "CRC-16 entered over the fast engine",
        fast.enter(9, CRC_16, 15),
    )
}

fn lines(rt: &impl Print) -> io::Result<()> {
    println!(rt; "\nAnswers to lines")?;
    for (what, line) in &LINES {
        said(rt, what, line_of(line))?;
    }
    said(rt, "a line of 8227 bytes", line_of(&[b'F'; 8227]))
}

fn filled(rt: &impl Print, station: &mut Station<Kinds<Table>>) -> io::Result<()> {
    for number in 32..45u8 {
        let _ = station.enter(number, ATM_HEC, 15);
    }
    said(
        rt,
        "99 entered as the seventeenth",
        station.enter(0x99, ATM_HEC, 15),
    )
}

fn changes(rt: &impl Print, station: &mut Station<Kinds<Table>>) -> io::Result<()> {
    for (what, number, description, reach) in &ENTERED {
        said(rt, what, station.enter(*number, *description, *reach))?;
    }
    for (what, number, reach) in &NARROWED {
        said(rt, what, station.narrow(*number, *reach))?;
    }
    said(rt, "99 retired, which is not held", station.retire(0x99))
}

fn frames(rt: &impl Print, station: &mut Station<Kinds<Table>>) -> io::Result<()> {
    for (what, number, message, room) in &SEALED {
        said(rt, what, sealed(station, *number, message, *room))?;
    }
    for (what, frame) in &TAKEN {
        said(rt, what, station.take(frame))?;
    }
    for (what, at, byte) in &TRIED {
        let mut frame = frames::GOOD;
        said(rt, what, station.trial(&mut frame, *at, *byte))?;
    }
    Ok(())
}

// Seals into an output of some bytes, at most 40.
fn sealed(
    station: &mut Station<Kinds<Table>>,
    number: u8,
    message: &[u8],
    room: usize,
) -> Result<usize, Fault> {
    let mut out = [0; 40];
    let room = room.min(40);
    station.seal(number, message, &mut out[0..room])
}

// The number, and on a refusal its layer and its place.
fn said<T: Drop>(rt: &impl Print, what: &str, answer: Result<T, Fault>) -> io::Result<()> {
    print!(rt; "  {what}: ")?;
    fault_or(rt, "0", answer)
}
