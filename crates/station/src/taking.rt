// Taking a word by an entry.
ghost use Rattle.std.specs.Prelude.{◌≡◌, ◌≤◌, length};
ghost use Rattle.code.specs.Model.{asked};
ghost use Rattle.station.specs.Frame.{opened};
ghost use Rattle.station.specs.Parts.{message_of};
ghost use Rattle.station.specs.Items.{seen};

use crate::checking::check_of;
use crate::difference::first_difference;
use crate::entry::Entry;
use crate::layout::SIZE;
use crate::parts::Parts;
use answer::fault::Fault;
use answer::rules::need;
use code::description::Description;
use code::kind::Kind;

// The message of a word whose check is right.
fn message_of<'f, K: Kind>(
    bank: &mut K,
    d: Description,
    check: u16,
    word: &'f [u8],
) -> Result<&'f [u8], Fault>
    requires { check ≤ length word.now }
    ensures answer { seen result ≡ message_of (asked (K.model bank.old)) d check word.now }
    ensures same { K.model bank.new ≡ K.model bank.old }
{
    let (message, tail) = word.split_at(word.len() - usize::from(check));
    let mut buffer = [0; 64];
    let right = check_of(bank, d, message, &mut buffer)?;
    if let Some(i) = first_difference(tail, right) {
        return Err(Fault::Check(SIZE + message.len() + i));
    }
    Ok(message)
}

// The message of a frame's word, by the entry that its number stands for.
pub(crate) fn open<'f, K: Kind>(bank: &mut K, e: Entry, parts: Parts<'f>) -> Result<&'f [u8], Fault>
    ensures answer { seen result ≡ opened (asked (K.model bank.old)) e parts.entry.coded.now parts.entry.word.now }
    ensures same { K.model bank.new ≡ K.model bank.old }
{
    let word = parts.word;
    if let Some(i) = first_difference(parts.coded, &<[u8; 10]>::from(e.description)) {
        return Err(Fault::Description(2 + i));
    }
    let sheet = bank.sheet(e.description)?;
    let (length, check) = (word.len(), usize::from(sheet.check));
    let whole = length.is_multiple_of(usize::from(sheet.tuple));
    need(length > check && whole, Fault::WordLength)?;
    need(length <= usize::from(e.reach), Fault::OverReach)?;
    message_of(bank, e.description, sheet.check, word)
}
