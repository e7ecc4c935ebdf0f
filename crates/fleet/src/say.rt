// Calls and their outcomes in words.
use answer::fault::Fault;
use shown::bytes::Bytes;
use station::call::{Call, Outcome};
use std::{fmt, io};

// A message in hexadecimal, or the word for an empty one.
#[derive(Clone, Copy)]
struct Message<'a>(&'a [u8]);

impl fmt::Display for Message<'_> {
    fn fmt<W: fmt::Write>(&self, f: &mut fmt::Formatter<W>) -> fmt::Result {
        if self.0.is_empty() {
            return f.write_str("nothing");
        }
        write!(f, "{}", Bytes(self.0))
    }
}

// Every call with its outcome, a line each.
pub(crate) fn told(
    rt: &impl Print,
    calls: &[Call<'_>],
    outcomes: &[Outcome<'_>],
) -> io::Result<()> {
    for (call, outcome) in calls.iter().zip(outcomes.iter()) {
        asked(rt, call)?;
        answered(rt, outcome)?;
    }
    Ok(())
}

fn asked(rt: &impl Print, call: &Call<'_>) -> io::Result<()> {
    match call {
        Call::Enter { number, reach, .. } => print!(rt; "  enter {number}, reach {reach}: "),
        Call::Narrow { number, reach } => print!(rt; "  narrow {number} to {reach}: "),
        Call::Retire { number } => print!(rt; "  retire {number}: "),
        Call::Seal {
            number,
            message,
            ..
        } => print!(rt; "  seal {} under {number}: ", Message(message)),
        Call::Take { frame } => print!(rt; "  take a frame of {} bytes: ", frame.len()),
        Call::Trial { at, byte, .. } => print!(rt; "  trial with {byte:02X} at {at}: "),
    }
}

fn answered(rt: &impl Print, outcome: &Outcome<'_>) -> io::Result<()> {
    match outcome {
        Outcome::Done(Ok(())) | Outcome::Tried(Ok(()), _) => println!(rt; "done"),
        Outcome::Wrote(Ok(size), _) => println!(rt; "wrote {size} bytes"),
        Outcome::Handed(Ok(message), _) => println!(rt; "handed over {}", Message(message)),
        Outcome::Done(Err(fault))
        | Outcome::Wrote(Err(fault), _)
        | Outcome::Handed(Err(fault), _)
        | Outcome::Tried(Err(fault), _) => refused(rt, *fault),
    }
}

fn refused(rt: &impl Print, fault: Fault) -> io::Result<()> {
    let number = fault.number();
    let layer = fault.layer();
    let place = fault.place();
    println!(rt; "refused with {number} by the {layer} at {place}")
}
