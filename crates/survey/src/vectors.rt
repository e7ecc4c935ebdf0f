// What is published of plain checks and of periods, beside what the engines and the period call answer.
use crate::published::{PERIODS, REMAINDERS};
use listing::asked::{Asked, Question};
use listing::engines::leaves;
use poly::period::period;
use shown::bytes::Bytes;
use shown::hex::Hex;
use std::io;

pub(crate) fn vectors(rt: &impl Print, engines: &[&dyn Asked]) -> io::Result<()> {
    println!(rt; "\nPublished remainders")?;
    for (name, degree, low, message, published) in &REMAINDERS {
        known(rt, name, *degree, *low, *published)?;
        print!(rt; "{}", Bytes(message))?;
        leaves(rt, engines, Question::Remainder(*degree, *low, message))?;
    }
    println!(rt; "\nPublished periods")?;
    for (degree, low, published) in &PERIODS {
        walked(rt, *degree, *low, *published)?;
    }
    Ok(())
}

fn known(rt: &impl Print, name: &str, degree: u8, low: u32, published: u32) -> io::Result<()> {
    let low = Hex::for_degree(degree, low);
    let published = Hex::for_degree(degree, published);
    print!(rt; "  {name}, degree {degree}, low part {low}, published {published}: ")
}

// The period that the walk finds, or none, beside the published one.
fn walked(rt: &impl Print, degree: u8, low: u32, published: u32) -> io::Result<()> {
    let low_part = Hex::for_degree(degree, low);
    print!(rt; "  degree {degree}, low part {low_part}: published {published}, ")?;
    match period(degree, low) {
        Ok(walk) => {
            let steps = walk.steps;
            match walk.period {
                Some(found) => println!(rt; "found {found} after {steps} steps"),
                None => println!(rt; "none up to 32768 after {steps} steps"),
            }
        }
        Err(fault) => println!(rt; "{fault}"),
    }
}
