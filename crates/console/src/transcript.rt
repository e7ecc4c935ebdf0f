// The transcript of a whole input.
ghost use Rattle.std.specs.Prelude.{◌≡◌, true, [], ◌++◌, is_ok, IfOk, OnOk};
ghost use Rattle.code.specs.Model.{asked};
ghost use Rattle.station.specs.Items.{items};
ghost use Rattle.console.specs.Lines.{lines_of};
ghost use Rattle.console.specs.Pledge.{LinesPromise};
ghost use Rattle.console.specs.Transcript.{transcript_from, transcript_of};

use crate::console::Console;
use crate::lines::Lines;
use code::kind::Kind;
use std::alloc::{AllocError, Global};

// Obeys every line of an input. An input has no more lines than bytes, so no number wraps.
fn obey_all<K: Kind>(
    console: &mut Console<K>,
    input: &[u8],
    out: &mut Vec<u8>,
) -> Result<(), AllocError>
    ensures printed { OnOk result (out.new.items ≡ out.old.items ++ transcript_from (asked (K.model console.old.station.bank)) 1 (items console.old.station.book) (lines_of input.now)) }
    ensures needs { input.now ≡ [] → is_ok result ≡ true }
{
    for (i, line) in Lines(input).enumerate() {
        console.obey(i as u64 + 1, line, out)?;
    }
    Ok(())
}

// What is printed of an input at a new station over the bank: the printed lines of its lines, in order. The answers are those of a run of the lines'
// calls, and so all that stations promise holds of them. Memory is needed for lines alone: an empty input is always answered.
pub fn transcript<K: Kind + Drop>(
    heap: Global,
    bank: K,
    input: &[u8],
) -> Result<Vec<u8>, AllocError>
    ensures printed { IfOk result (λ v. v.items ≡ transcript_of (asked (K.model bank)) input.now) }
    ensures needs { input.now ≡ [] → is_ok result ≡ true }
    ensures promises { LinesPromise }
{
    let mut console = Console::new(bank);
    let mut out = Vec::new(heap);
    obey_all(&mut console, input, &mut out)?;
    Ok(out)
}
