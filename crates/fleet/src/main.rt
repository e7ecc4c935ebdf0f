// Two stations whose books disagree: a set-up tool saved a 24-bit code under a number that the other site holds as a 16-bit one.
// All six calls are made at both, faults are planted, and what was done and answered is printed in words.
#![tactic(auto)]

mod say;

use anyhow::anyhow;
use code::catalogue::published;
use code::description::Description;
use engine::table::Table;
use kinds::three::three_kinds;
use runs::run::run;
use say::told;
use station::call::{Call, Outcome};

const READING: [u8; 8] = [0x00, 0x00, 0x13, 0x88, 0xFF, 0xEC, 0x01, 0xF4];

// The reading, and a byte more.
const LONGER: [u8; 9] = [0x00, 0x00, 0x13, 0x88, 0xFF, 0xEC, 0x01, 0xF4, 0x01];

const BLANK: [u8; 40] = [0; 40];

// The codes that the sites enter.
#[derive(Clone, Copy)]
struct Codes {
    crc_16: Description,
    ccitt: Description,
    hec: Description,
    long: Description,
    wsc: Description,
}

fn published_codes() -> Option<Codes> {
    Some(Codes {
        crc_16: published("CRC-16")?,
        ccitt: published("CRC-CCITT")?,
        hec: published("ATM-HEC")?,
        long: published("LONG-24")?,
        wsc: published("WSC-8")?,
    })
}

// The frame that a seal wrote: the outputs are as long as the frames.
fn frame_of<'v>(outcome: &'v Outcome<'_>) -> &'v [u8] {
    match outcome {
        Outcome::Wrote(_, out) => out.as_slice(),
        _ => &[],
    }
}

// What the old site sealed.
#[derive(Clone, Copy)]
struct Frames<'f> {
    reading: &'f [u8],
    short: &'f [u8],
    sums: &'f [u8],
    longer: &'f [u8],
}

// The old site: what it entered and sealed.
fn old_site(rt: &HostRuntime, c: Codes, reading: &[u8]) -> anyhow::Result<()> {
    let calls = [
        Call::Enter {
            number: 5,
            description: c.crc_16,
            reach: 64,
        },
        Call::Enter {
            number: 7,
            description: c.hec,
            reach: 15,
        },
        Call::Enter {
            number: 7,
            description: c.crc_16,
            reach: 64,
        },
        Call::Enter {
            number: 9,
            description: c.wsc,
            reach: 256,
        },
        Call::Seal {
            number: 5,
            message: &READING,
            out: &BLANK[0..26],
        },
        Call::Seal {
            number: 7,
            message: &[1],
            out: &BLANK[0..18],
        },
        Call::Seal {
            number: 9,
            message: &READING,
            out: &BLANK[0..26],
        },
        Call::Seal {
            number: 5,
            message: &[],
            out: &BLANK[0..26],
        },
        Call::Seal {
            number: 7,
            message: &BLANK[0..15],
            out: &BLANK,
        },
        Call::Seal {
            number: 5,
            message: &READING,
            out: &BLANK[0..25],
        },
        Call::Seal {
            number: 6,
            message: &READING,
            out: &BLANK[0..26],
        },
        Call::Narrow {
            number: 5,
            reach: 10,
        },
        Call::Narrow {
            number: 5,
            reach: 10,
        },
        Call::Seal {
            number: 5,
            message: &LONGER,
            out: &BLANK,
        },
        Call::Take { frame: reading },
        Call::Trial {
            frame: reading,
            at: 20,
            byte: 0x01,
        },
        Call::Retire { number: 9 },
        Call::Retire { number: 9 },
    ];
    let ran = run(rt.alloc(), three_kinds::<Table>(), &calls)?;
    println!(rt; "The old site seals")?;
    told(rt, &calls, &ran.outcomes)?;
    Ok(())
}

// The new site: what it makes of the old site's frames.
fn new_site(rt: &HostRuntime, c: Codes, sent: Frames<'_>) -> anyhow::Result<()> {
    let Frames {
        reading,
        short,
        sums,
        longer,
    } = sent;
    let calls = [
        Call::Enter {
            number: 5,
            description: c.long,
            reach: 511,
        },
        Call::Enter {
            number: 7,
            description: c.hec,
            reach: 15,
        },
        Call::Enter {
            number: 9,
            description: c.wsc,
            reach: 256,
        },
        Call::Take { frame: reading },
        Call::Take { frame: short },
        Call::Take { frame: sums },
        Call::Trial {
            frame: short,
            at: 0,
            byte: 0x02,
        },
        Call::Trial {
            frame: short,
            at: 1,
            byte: 0x06,
        },
        Call::Trial {
            frame: short,
            at: 15,
            byte: 0x63,
        },
        Call::Trial {
            frame: short,
            at: 16,
            byte: 0x00,
        },
        Call::Trial {
            frame: short,
            at: 17,
            byte: 0x06,
        },
        Call::Trial {
            frame: short,
            at: 18,
            byte: 0x00,
        },
        Call::Trial {
            frame: short,
            at: 16,
            byte: 0x01,
        },
        Call::Take {
            frame: short.get(0..16).unwrap_or(&[]),
        },
        Call::Take { frame: longer },
        Call::Narrow {
            number: 9,
            reach: 9,
        },
        Call::Take { frame: sums },
        Call::Retire { number: 7 },
        Call::Take { frame: short },
        Call::Enter {
            number: 7,
            description: c.ccitt,
            reach: 4095,
        },
        Call::Take { frame: short },
        Call::Seal {
            number: 7,
            message: &[1],
            out: &BLANK[0..19],
        },
    ];
    let ran = run(rt.alloc(), three_kinds::<Table>(), &calls)?;
    println!(rt; "\nThe new site, whose set-up tool saved another code under 5, takes")?;
    told(rt, &calls, &ran.outcomes)?;
    Ok(())
}

// Seals the old site's frames, and has both sites make their calls.
fn fleet(rt: &HostRuntime) -> anyhow::Result<()> {
    let c = published_codes().ok_or(anyhow!("no such code"))?;
    let sealing = [
        Call::Enter {
            number: 5,
            description: c.crc_16,
            reach: 64,
        },
        Call::Enter {
            number: 7,
            description: c.hec,
            reach: 15,
        },
        Call::Enter {
            number: 9,
            description: c.wsc,
            reach: 256,
        },
        Call::Seal {
            number: 5,
            message: &READING,
            out: &BLANK[0..26],
        },
        Call::Seal {
            number: 7,
            message: &[1],
            out: &BLANK[0..18],
        },
        Call::Seal {
            number: 9,
            message: &READING,
            out: &BLANK[0..26],
        },
        Call::Seal {
            number: 7,
            message: &[1],
            out: &BLANK[0..19],
        },
    ];
    let sealed = run(rt.alloc(), three_kinds::<Table>(), &sealing)?;
    let [.., reading, short, sums, longer] = &sealed.outcomes[..] else {
        return Err(anyhow!("a call has no outcome"));
    };
    let sent = Frames {
        reading: frame_of(reading),
        short: frame_of(short),
        sums: frame_of(sums),
        longer: frame_of(longer),
    };
    old_site(rt, c, sent.reading)?;
    new_site(rt, c, sent)
}

fn main(rt: HostRuntime) -> anyhow::Result<()> {
    fleet(&rt)
}
