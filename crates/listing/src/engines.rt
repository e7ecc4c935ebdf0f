// What engines answer, beside their names.
use crate::asked::{Asked, Question};
use shown::hex::Hex;
use std::io;

// Which engines carry a generator.
pub(crate) fn carriers(
    rt: &impl Print,
    engines: &[&dyn Asked],
    degree: u8,
    low: u32,
) -> io::Result<()> {
    for engine in engines {
        let name = engine.name();
        match engine.answer(Question::Remainder(degree, low, &[])) {
            Ok(_) => println!(rt; "  {name} carries it")?,
            Err(fault) => println!(rt; "  {name} refuses it: {fault}")?,
        }
    }
    Ok(())
}

/// A remainder or a check, with the engines that answer it; an engine that answers another is named too, with its own.
pub fn by_engines(
    rt: &impl Print,
    engines: &[&dyn Asked],
    verb: &str,
    question: Question,
) -> io::Result<()> {
    let degree = question.degree();
    let mut first = None;
    for engine in engines {
        if let Ok(value) = engine.answer(question) {
            let name = engine.name();
            match first {
                None => print!(rt; " {verb} {} by {name}", Hex::for_degree(degree, value))?,
                Some(_) => print!(rt; ", {name}")?,
            }
            if value != *first.get_or_insert(value) {
                print!(rt; " BUT {}", Hex::for_degree(degree, value))?;
            }
        }
    }
    println!(rt; "")
}

/// What is left of a message or of pieces.
pub fn leaves(rt: &impl Print, engines: &[&dyn Asked], question: Question) -> io::Result<()> {
    by_engines(rt, engines, "leaves", question)
}
