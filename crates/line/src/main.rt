// Commands on standard input, their transcript on standard output: a station with kinds 1 to 3, the first two over the table engine.
#![tactic(auto)]

ghost use Rattle.std.specs.Prelude.{◌≡◌, IfOk};
ghost use Rattle.code.specs.Model.{asked};
ghost use Rattle.engine.specs.Meaning.{carries_all};
ghost use Rattle.runs.specs.Pledge.{three_kinds_over};
ghost use Rattle.console.specs.Transcript.{transcript_of};

use console::transcript::transcript;
use engine::table::Table;
use kinds::three::three_kinds;
use std::alloc::{AllocError, Global};
use std::io;
use std::io::{Read, Write};

// What is printed of an input: its transcript at a new station over kinds 1 to 3, with engines that carry every generator.
fn obeyed(heap: Global, input: &[u8]) -> Result<Vec<u8>, AllocError>
    ensures { IfOk result (λ v. v.items ≡ transcript_of (asked (three_kinds_over carries_all carries_all)) input.now) }
{
    transcript(heap, three_kinds::<Table>(), input)
}

fn main(rt: HostRuntime) -> io::Result<()> {
    let mut input = Vec::new(rt.alloc());
    rt.stdin().read_to_end(&mut input)?;
    let printed = obeyed(rt.alloc(), &input)?;
    rt.stdout().write_all(&printed)
}
