// The refusals of kinds, their sheets and greatest reaches, and the small sums by hand.
use crate::refusal::{Refusal, refusal_of};
use answer::fault::Layer;
use code::catalogue::{ATM_HEC, CRC_16, PARITY_16, WSC_8, published};
use code::description::Description;
use code::kind::Kind;
use crc::crc_kind::Crc;
use engine::engine::Engine;
use engine::fast::Fast;
use engine::table::Table;
use kinds::three::three_kinds;
use std::process::Abort;
use std::test::Fail;

// One row for each way in which an admission over the table engine is refused: description, reach, and the refusal.
const ROWS: [(Description, u16, Option<Refusal>); 13] = [
    (
        Description { kind: 9, ..ATM_HEC },
        15,
        Some((11, Layer::Kind, 2)),
    ),
    (
        Description {
            degree: 12,
            ..ATM_HEC
        },
        15,
        Some((12, Layer::Kind, 3)),
    ),
    (
        Description {
            degree2: 1,
            ..ATM_HEC
        },
        15,
        Some((12, Layer::Kind, 8)),
    ),
    (
        Description { low2: 1, ..ATM_HEC },
        15,
        Some((12, Layer::Kind, 9)),
    ),
    (
        Description {
            tuple: 2,
            ..ATM_HEC
        },
        15,
        Some((12, Layer::Kind, 11)),
    ),
    (
        Description {
            low: 0x06,
            ..ATM_HEC
        },
        15,
        Some((13, Layer::Kind, 4)),
    ),
    (
        Description {
            low2: 0x14,
            ..WSC_8
        },
        15,
        Some((13, Layer::Kind, 9)),
    ),
    (
        Description {
            low: 0x0001,
            ..PARITY_16
        },
        15,
        Some((14, Layer::Kind, 4)),
    ),
    (
        Description {
            low2: 0x05,
            ..WSC_8
        },
        15,
        Some((14, Layer::Kind, 9)),
    ),
    (ATM_HEC, 1, Some((16, Layer::Kind, 12))),
    (CRC_16, 4096, Some((17, Layer::Kind, 4))),
    (
        Description {
            degree2: 2,
            low2: 0x01,
            ..WSC_8
        },
        15,
        Some((17, Layer::Kind, 9)),
    ),
    (CRC_16, 4095, None),
];

#[test]
fn admission_refuses(rt: HostRuntime) {
    let mut bank = three_kinds::<Table>();
    for (d, reach, refusal) in &ROWS {
        assert_eq!(rt; refusal_of(bank.admit(*d, *reach)), *refusal);
    }
}

#[test]
fn fast_does_not_carry(rt: HostRuntime) -> Result<(), Fail> {
    let mut crc = Crc::new(Fast::new());
    let d = published("CRC-16").ok_or("none")?;
    assert_eq!(rt; refusal_of(crc.admit(d, 15)), Some((15, Layer::Engine, 4)));
    Ok(())
}

// Name, message, check.
const SUMS: [(&str, &[u8], &[u8]); 9] = [
    ("ATM-HEC", b"\x01", b"\x07"),
    ("ATM-HEC", b"\x80", b"\x89"),
    ("CRC-CCITT", b"\x01", b"\x10\x21"),
    ("CRC-CCITT", b"\x80", b"\x91\x88"),
    ("PARITY-16", b"\x01", b"\x00\x07"),
    ("PARITY-16", b"\x03", b"\x00\x0A"),
    ("WSC-8", b"\x01", b"\x02\x03"),
    ("WSC-8", b"\x80", b"\x1D\x16"),
    ("WSC-8", b"\x01\x01", b"\x06\x06"),
];

// The check is written at the start, and the rest of the output is kept.
fn written<K: Kind>(
    rt: &impl Abort,
    bank: &mut K,
    d: Description,
    message: &[u8],
    expected: &[u8],
) -> Result<(), Fail> {
    let mut out = [0xEE; 4];
    let size = bank.check(d, message, &mut out)?;
    let (check, rest) = out.split_at_checked(size).ok_or("long")?;
    assert!(rt; check == expected);
    assert!(rt; rest.iter().all(|b| *b == 0xEE));
    Ok(())
}

#[test]
fn checks_are_written(rt: HostRuntime) -> Result<(), Fail> {
    let mut bank = three_kinds::<Table>();
    for (name, message, check) in &SUMS {
        let d = published(name).ok_or("none")?;
        written(&rt, &mut bank, d, message, check)?;
    }
    Ok(())
}

// 31 and 33 have layer frame and a length as their place; the output is kept.
#[test]
fn checks_are_refused(rt: HostRuntime) -> Result<(), Fail> {
    let mut crc = Crc::new(Table::new());
    let d = published("CRC-16").ok_or("none")?;
    let mut out = [0xEE; 1];
    assert_eq!(rt;
        refusal_of(crc.check(d, b"", &mut out)),
        Some((31, Layer::Frame, 0))
    );
    assert_eq!(rt; out[0], 0xEE);
    assert_eq!(rt;
        refusal_of(crc.check(d, b"\x01", &mut out)),
        Some((33, Layer::Frame, 1))
    );
    assert_eq!(rt; out[0], 0xEE);
    Ok(())
}
