// What engines and the period call refuse.
use answer::fault::Fault;
use engine::bitwise::Bitwise;
use engine::engine::Engine;
use engine::fast::Fast;
use engine::ready_made::ReadyMade;
use poly::period::period;
use shown::hex::Hex;
use std::io;

// Degrees and low parts that every engine refuses alike.
const SETS: [(u8, u32); 4] = [(7, 0x07), (33, 0x07), (8, 0x06), (8, 0x0107)];

// Degrees and low parts that the period call refuses.
const WALKS: [(u8, u32); 4] = [(1, 0x01), (33, 0x01), (8, 0x06), (8, 0x0107)];

/// Each way in which a set or the period call is refused.
pub fn refusals(rt: &impl Print) -> io::Result<()> {
    println!(rt; "Refusals")?;
    for (degree, low) in &SETS {
        set(rt, Bitwise::new(), *degree, *low, "")?;
    }
    set(rt, Fast::new(), 16, 0x8005, " by fast")?;
    set(rt, ReadyMade::new(), 16, 0x1021, " by ready-made")?;
    for (degree, low) in &WALKS {
        refusal(rt, "period", *degree, *low, "", period(*degree, *low))?;
    }
    Ok(())
}

fn set<E: Engine + Drop>(
    rt: &impl Print,
    mut engine: E,
    degree: u8,
    low: u32,
    by: &str,
) -> io::Result<()> {
    refusal(rt, "engine set", degree, low, by, engine.set(degree, low))
}

fn refusal<T: Drop>(
    rt: &impl Print,
    call: &str,
    degree: u8,
    low: u32,
    by: &str,
    answer: Result<T, Fault>,
) -> io::Result<()> {
    let low = Hex::in_few_bytes(low);
    print!(rt; "  {call}, degree {degree}, low part {low}{by}: ")?;
    fault_or(rt, "no refusal", answer)
}

/// The fault of an answer, or a word where there is none.
pub fn fault_or<T: Drop>(rt: &impl Print, word: &str, answer: Result<T, Fault>) -> io::Result<()> {
    match answer {
        Ok(_) => println!(rt; "{word}"),
        Err(fault) => println!(rt; "{fault}"),
    }
}
