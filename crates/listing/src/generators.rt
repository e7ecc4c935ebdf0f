// The published generators: what each is, which engines carry it, and what it leaves of some messages.
use crate::asked::{Asked, Question};
use crate::engines::{carriers, leaves};
use crate::messages::every_byte;
use code::catalogue::{ATM_HEC, CRC_16, CRC_CCITT, FAST_16, IEEE_802, LONG_24, PARITY_16, WSC_8};
use poly::generator::Generator;
use shown::bytes::Bytes;
use shown::hex::Hex;
use std::io;

// A name, and the degree and the low part of the generator.
const PUBLISHED: [(&str, u8, u32); 9] = [
    ("CRC-16", CRC_16.degree, CRC_16.low),
    ("CRC-CCITT", CRC_CCITT.degree, CRC_CCITT.low),
    ("IEEE-802", IEEE_802.degree, IEEE_802.low),
    ("ATM-HEC", ATM_HEC.degree, ATM_HEC.low),
    ("FAST-16", FAST_16.degree, FAST_16.low),
    ("LONG-24", LONG_24.degree, LONG_24.low),
    ("PARITY-16", PARITY_16.degree, PARITY_16.low),
    ("WSC-8 first", WSC_8.degree, WSC_8.low),
    ("WSC-8 second", WSC_8.degree2, WSC_8.low2 as u32),
];

const PIECES: [&[u8]; 4] = [b"1", b"", b"2345", b"6789"];

/// Every generator, one block each.
pub fn generators(rt: &impl Print, engines: &[&dyn Asked]) -> io::Result<()> {
    for (name, degree, low) in &PUBLISHED {
        let degree = *degree;
        let low = *low;
        match Generator::new(degree, low) {
            Ok(generator) => about(rt, name, generator)?,
            Err(fault) => println!(rt; "{name}: {fault}")?,
        }
        carriers(rt, engines, degree, low)?;
        if degree >= 8 {
            messages(rt, engines, degree, low)?;
            pieces(rt, engines, degree, low)?;
        }
        println!(rt; "")?;
    }
    Ok(())
}

// What the generator is.
fn about(rt: &impl Print, name: &str, generator: Generator) -> io::Result<()> {
    let degree = generator.degree();
    let low = Hex::for_degree(degree, generator.low());
    let terms = generator.terms();
    println!(rt; "{name}: degree {degree}, low part {low}, {terms} terms")?;
    let walk = generator.period();
    let steps = walk.steps;
    match walk.period {
        Some(period) => println!(rt; "  period {period} after {steps} steps")?,
        None => println!(rt; "  no period up to 32768 after {steps} steps")?,
    }
    let longest = walk.period.unwrap_or(steps) / 8;
    println!(rt; "  longest word {longest} bytes")
}

fn messages(rt: &impl Print, engines: &[&dyn Asked], degree: u8, low: u32) -> io::Result<()> {
    let all = every_byte();
    let short: [&[u8]; 7] = [
        b"\x01",
        b"\x80",
        b"\x01\x01",
        b"123456789",
        b"\xFF\xFF",
        b"\xFF\xFF\xFF\xFF",
        &all[0..16],
    ];
    print!(rt; "  nothing")?;
    leaves(rt, engines, Question::Remainder(degree, low, &[]))?;
    for message in &short {
        print!(rt; "  {}", Bytes(message))?;
        leaves(rt, engines, Question::Remainder(degree, low, message))?;
    }
    print!(rt; "  256 bytes 00 to FF")?;
    leaves(rt, engines, Question::Remainder(degree, low, &all))
}

fn pieces(rt: &impl Print, engines: &[&dyn Asked], degree: u8, low: u32) -> io::Result<()> {
    print!(rt; "  no piece")?;
    leaves(rt, engines, Question::Pieces(degree, low, &[]))?;
    print!(rt; "  31, nothing, 32333435, 36373839 in pieces")?;
    leaves(rt, engines, Question::Pieces(degree, low, &PIECES))
}
