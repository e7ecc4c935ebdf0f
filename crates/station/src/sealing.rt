// Sealing a message by an entry, and writing its frame.
ghost use Rattle.std.specs.Prelude.{◌≡◌, ◌+◌, ◌^◌, ◌<◌, ◌≤◌, ◌++◌, length, drop};
ghost use Rattle.answer.specs.Refusal.{read};
ghost use Rattle.code.specs.Model.{asked, length_of, written};
ghost use Rattle.station.specs.Fitting.{sealed_by};
ghost use Rattle.station.specs.Frame.{frame};

use crate::checking::check_of;
use crate::entry::Entry;
use crate::head::head_of;
use crate::layout::SIZE;
use crate::place::write_parts;
use answer::fault::Fault;
use answer::rules::need;
use code::description::Description;
use code::kind::Kind;

// The frame of a message and its check at the start of the output. Answers its length.
fn write_frame(number: u8, d: Description, message: &[u8], check: &[u8], out: &mut [u8]) -> usize
    requires { (length message.now + length check.now < 2 ^ 16) × (16 + (length message.now + length check.now) ≤ length out.old) }
    ensures long { result ≡ length (frame number d message.now check.now) }
    ensures out { out.new ≡ frame number d message.now check.now ++ drop (length (frame number d message.now check.now)) out.old }
{
    let word = (message.len() + check.len()) as u16;
    let head = head_of(number, d, word);
    write_parts(out, &head, message, check)
}

// Seals a message by the entry that its number stands for.
pub(crate) fn seal_by<K: Kind>(
    bank: &mut K,
    e: Entry,
    number: u8,
    message: &[u8],
    out: &mut [u8],
) -> Result<usize, Fault>
    ensures answer { read result ≡ length_of (sealed_by (asked (K.model bank.old)) e number message.now (length out.old)) }
    ensures written { out.new ≡ written (sealed_by (asked (K.model bank.old)) e number message.now (length out.old)) out.old }
    ensures same { K.model bank.new ≡ K.model bank.old }
{
    let sheet = bank.sheet(e.description)?;
    let (length, room) = (message.len(), out.len());
    let word = length + usize::from(sheet.check);
    let whole = length.is_multiple_of(usize::from(sheet.tuple));
    need(length > 0 && whole, Fault::Message(length))?;
    need(word <= usize::from(e.reach), Fault::OverReach)?;
    need(SIZE + word <= room, Fault::Output(room))?;
    let mut buffer = [0; 64];
    let check = check_of(bank, e.description, message, &mut buffer)?;
    need(check.len() == usize::from(sheet.check), Fault::Output(room))?;
    Ok(write_frame(number, e.description, message, check, out))
}
