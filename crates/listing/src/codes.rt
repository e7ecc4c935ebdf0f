// The published codes as kinds: sheet, greatest reach, checks and refusals, by the bank of the three kinds over the table engine.
use crate::messages::every_byte;
use crate::refusals::fault_or;
use code::catalogue::{ATM_HEC, CRC_16, NAMES, PARITY_16, WSC_8, published};
use code::description::{Description, Sheet};
use code::kind::Kind;
use crc::crc_kind::Crc;
use engine::engine::Engine;
use engine::fast::Fast;
use engine::table::Table;
use kinds::three::three_kinds;
use shown::bytes::Bytes;
use std::io;

// A code of kind 3 with tuples of four bytes.
const WIDE: Description = Description {
    kind: 3,
    degree: 32,
    low: 0x04C1_1DB7,
    degree2: 16,
    low2: 0x8005,
    tuple: 4,
};

/// Every published code, and what admission answers to some descriptions.
pub fn codes(rt: &impl Print) -> io::Result<()> {
    let mut bank = three_kinds::<Table>();
    println!(rt; "\nCodes\n")?;
    for name in &NAMES {
        match published(name) {
            Some(d) => block(rt, &mut bank, name, d)?,
            None => println!(rt; "{name}: none")?,
        }
    }
    block(rt, &mut bank, "tuples of four bytes", WIDE)?;
    admissions(rt, &mut bank)?;
    let unknown = match published("CRC-17") {
        Some(_) => "some",
        None => "none",
    };
    println!(rt; "  no published code is called CRC-17: {unknown}")
}

fn block<K: Kind>(rt: &impl Print, bank: &mut K, name: &str, d: Description) -> io::Result<()> {
    println!(rt; "{name}: {d}")?;
    match bank.sheet(d) {
        Ok(sheet) => {
            listed(rt, sheet)?;
            greatest(rt, bank, d, sheet.tuple)?;
            checks(rt, bank, d)?;
            rooms(rt, bank, d, sheet.check)?;
        }
        Err(fault) => println!(rt; "  {fault}")?,
    }
    println!(rt; "")
}

fn listed(rt: &impl Print, sheet: Sheet) -> io::Result<()> {
    let odd = if sheet.odd { "yes" } else { "no" };
    println!(rt;
        "  check {}, tuple {}, burst {}, few {}, odd {odd}",
        sheet.check, sheet.tuple, sheet.burst, sheet.few
    )
}

// The greatest admitted reach, from 4,096 downwards by tuples.
fn greatest<K: Kind>(rt: &impl Print, bank: &mut K, d: Description, tuple: u16) -> io::Result<()> {
    let greatest = (0..=4096u16)
        .rev()
        .step_by(usize::from(tuple.max(1)))
        .find(|reach| bank.admit(d, *reach).is_ok());
    let Some(reach) = greatest else {
        return println!(rt; "  no reach");
    };
    print!(rt; "  greatest reach {reach}, one tuple more ")?;
    fault_or(rt, "admitted", bank.admit(d, reach.saturating_add(tuple)))
}

fn checks<K: Kind>(rt: &impl Print, bank: &mut K, d: Description) -> io::Result<()> {
    let all = every_byte();
    let short: [&[u8]; 6] = [
        b"\x01",
        b"\x80",
        b"\x03",
        b"\x01\x01",
        b"123456789",
        &all[0..16],
    ];
    for message in &short {
        print!(rt; "  {}", Bytes(message))?;
        check(rt, bank, d, message)?;
    }
    print!(rt; "  256 bytes 00 to FF")?;
    check(rt, bank, d, &all)
}

fn check<K: Kind>(rt: &impl Print, bank: &mut K, d: Description, message: &[u8]) -> io::Result<()> {
    let mut out = [0; 64];
    match bank.check(d, message, &mut out) {
        Ok(size) => println!(rt; " has {}", Bytes(out.get(0..size).unwrap_or(&[]))),
        Err(fault) => println!(rt; " is refused: {fault}"),
    }
}

// An empty message, and an output with one byte too few.
fn rooms<K: Kind>(rt: &impl Print, bank: &mut K, d: Description, size: u16) -> io::Result<()> {
    let mut out = [0; 64];
    print!(rt; "  nothing is refused: ")?;
    fault_or(rt, "no refusal", bank.check(d, &[], &mut out))?;
    let room = usize::from(size.saturating_sub(1)).min(64);
    print!(rt; "  one byte of room too few: ")?;
    fault_or(rt, "no refusal", bank.check(d, &[0; 4], &mut out[0..room]))
}

// Descriptions with a reach: one for each way to be refused by a bank over the table engine, but for the one of the fast engine.
const BEFORE: [(Description, u16); 10] = [
    (Description { kind: 9, ..ATM_HEC }, 15),
    (
        Description {
            degree: 12,
            ..ATM_HEC
        },
        15,
    ),
    (
        Description {
            degree2: 1,
            ..ATM_HEC
        },
        15,
    ),
    (Description { low2: 1, ..ATM_HEC }, 15),
    (
        Description {
            tuple: 2,
            ..ATM_HEC
        },
        15,
    ),
    (
        Description {
            degree2: 9,
            ..WSC_8
        },
        15,
    ),
    (
        Description {
            low: 0x06,
            ..ATM_HEC
        },
        15,
    ),
    (
        Description {
            low2: 0x14,
            ..WSC_8
        },
        15,
    ),
    (
        Description {
            low: 0x0001,
            ..PARITY_16
        },
        15,
    ),
    (
        Description {
            low2: 0x05,
            ..WSC_8
        },
        15,
    ),
];

const AFTER: [(Description, u16); 4] = [
    (ATM_HEC, 1),
    (CRC_16, 4096),
    (
        Description {
            degree2: 2,
            low2: 0x01,
            ..WSC_8
        },
        15,
    ),
    (CRC_16, 4095),
];

fn admissions<K: Kind>(rt: &impl Print, bank: &mut K) -> io::Result<()> {
    println!(rt; "Admission")?;
    for (d, reach) in &BEFORE {
        admission(rt, bank, "table", *d, *reach)?;
    }
    admission(rt, &mut Crc::new(Fast::new()), "fast", CRC_16, 15)?;
    for (d, reach) in &AFTER {
        admission(rt, bank, "table", *d, *reach)?;
    }
    Ok(())
}

fn admission<K: Kind>(
    rt: &impl Print,
    kind: &mut K,
    engine: &str,
    d: Description,
    reach: u16,
) -> io::Result<()> {
    print!(rt; "  {d}, reach {reach}, by {engine}: ")?;
    fault_or(rt, "admitted", kind.admit(d, reach))
}
