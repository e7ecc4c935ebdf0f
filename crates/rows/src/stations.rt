// The refusals of a station through its calls, and what a refusal leaves: the book, the output, the frame.
use crate::refusal::{Refusal, refusal_of};
use crate::station_rows::*;
use answer::reading::number_of;
use code::catalogue::{ATM_HEC, published};
use engine::table::Table;
use kinds::three::{Kinds, three_kinds};
use listing::frames;
use station::call::{Call, Outcome};
use station::station::Station;
use std::alloc::Global;
use std::process::Abort;
use std::test::Fail;

// An entry: the number, the code's name, and the length of the longest message within a reach of 15.
const ENTRIES: [(u8, &str, usize); 3] = [
    (5, "ATM-HEC", 14),
    (6, "PARITY-16", 13),
    (8, "WSC-8", 13),
];

fn empty() -> Station<Kinds<Table>> {
    Station::new(three_kinds())
}

// Sixteen entries of reach 15: the three, and ATM-HEC under 32 to 44.
fn full() -> Result<Station<Kinds<Table>>, Fail> {
    let mut station = empty();
    for (number, name, _) in &ENTRIES {
        station.enter(*number, published(name).ok_or("none")?, 15)?;
    }
    for number in 32..45u8 {
        station.enter(number, ATM_HEC, 15)?;
    }
    Ok(station)
}

// The book is as it was: these numbers and no others, each with its code and its reach. Nothing is narrowed to 65,535.
fn as_it_was(rt: &impl Abort, station: &mut Station<Kinds<Table>>) -> Result<(), Fail> {
    for number in 0..=255u8 {
        let held = matches!(number, 5 | 6 | 8 | 32..=44);
        let answer = station.narrow(number, 65535);
        assert_eq!(rt; number_of(&answer), if held { 24 } else { 23 });
    }
    for (number, name, longest) in &ENTRIES {
        seals(rt, station, *number, *longest)?;
        let d = published(name).ok_or("none")?;
        assert_eq!(rt; number_of(&station.enter(*number, d, 15)), 21);
    }
    Ok(())
}

// The longest message is sealed, and taken.
fn seals(
    rt: &impl Abort,
    station: &mut Station<Kinds<Table>>,
    number: u8,
    longest: usize,
) -> Result<(), Fail> {
    let zeros = [0; 14];
    let mut out = [0xEE; 32];
    let message = zeros.get(0..longest).ok_or("long")?;
    assert_eq!(rt; station.seal(number, message, &mut out)?, 31);
    assert_eq!(rt; out[31], 0xEE);
    assert_eq!(rt; station.take(&out[0..31])?.len(), longest);
    Ok(())
}

// The refusal in an outcome, whose output or frame is what the call showed.
fn refusal_in(rt: &impl Abort, outcome: Outcome<'_>, shown: &[u8]) -> Option<Refusal> {
    match outcome {
        Outcome::Done(answer) => refusal_of(answer),
        Outcome::Wrote(answer, out) => {
            assert!(rt; out.as_slice() == shown);
            refusal_of(answer)
        }
        Outcome::Handed(answer, frame) => {
            assert!(rt; frame == shown);
            refusal_of(answer)
        }
        Outcome::Tried(answer, frame) => {
            assert!(rt; frame.as_slice() == shown);
            refusal_of(answer)
        }
    }
}

fn shown_by<'a>(call: Call<'a>) -> &'a [u8] {
    match call {
        Call::Seal {
            number: _,
            message: _,
            out,
        } => out,
        Call::Take { frame } => frame,
        Call::Trial {
            frame,
            at: _,
            byte: _,
        } => frame,
        _ => &[],
    }
}

fn row(
    rt: &impl Abort,
    heap: Global,
    station: &mut Station<Kinds<Table>>,
    row: Row,
) -> Result<(), Fail> {
    let (call, refusal) = row;
    let outcome = station.perform(heap, call)?;
    assert_eq!(rt; refusal_in(rt, outcome, shown_by(call)), Some(refusal));
    as_it_was(rt, station)
}

#[test]
fn book_and_seal_refuse(rt: HostRuntime) -> Result<(), Fail> {
    let mut station = full()?;
    as_it_was(&rt, &mut station)?;
    for each in BOOK.iter().chain(SEAL.iter()) {
        row(&rt, rt.alloc(), &mut station, *each)?;
    }
    Ok(())
}

// Take refuses the frame, and so does a trial that writes the first byte again.
fn refused_both_ways(
    rt: &impl Abort,
    heap: Global,
    station: &mut Station<Kinds<Table>>,
    frame: &'static [u8],
    refusal: Refusal,
) -> Result<(), Fail> {
    row(rt, heap, station, (Call::Take { frame }, refusal))?;
    let byte = frame.first().copied().ok_or("empty")?;
    row(
        rt,
        heap,
        station,
        (Call::Trial { frame, at: 0, byte }, refusal),
    )
}

#[test]
fn take_and_trial_refuse(rt: HostRuntime) -> Result<(), Fail> {
    let mut station = full()?;
    for (frame, refusal) in &TAKE {
        refused_both_ways(&rt, rt.alloc(), &mut station, frame, *refusal)?;
    }
    for each in &TRIAL {
        row(&rt, rt.alloc(), &mut station, *each)?;
    }
    Ok(())
}

// At an empty book no number is held, and a frame of fewer bytes than a head and one more is told first.
#[test]
fn empty_book_refuses(rt: HostRuntime) {
    let mut station = empty();
    let mut out = [0xEE; 18];
    assert_eq!(rt; number_of(&station.seal(5, &[1], &mut out)), 23);
    assert_eq!(rt; out[0], 0xEE);
    assert_eq!(rt; number_of(&station.take(&frames::GOOD)), 23);
    assert_eq!(rt; number_of(&station.take(&[])), 41);
    assert_eq!(rt; number_of(&station.trial(&mut out, 18, 0)), 48);
}
