// A frame taken apart: the fields of its head by a pattern, and the first four rules of take.
ghost use Rattle.std.specs.Prelude.{◌≡◌};
ghost use Rattle.station.specs.Parts.{parts_seen, parts_of};

use crate::ccitt::ccitt_of;
use crate::layout::{MARK, SIZE};
use answer::fault::Fault;
use answer::rules::need;

// What take goes on with: the number, the ten bytes of the description, and the word.
#[derive(Clone, Copy)]
pub struct Parts<'f> {
    pub(crate) number: u8,
    pub(crate) coded: &'f [u8],
    pub(crate) word: &'f [u8],
}

pub(crate) fn parts_of(frame: &[u8]) -> Result<Parts<'_>, Fault>
    ensures { parts_seen result ≡ parts_of frame.now }
{
    need(frame.len() > SIZE, Fault::ShortFrame(frame.len()))?;
    let (head, word) = frame.split_at(SIZE);
    let [layout, number, coded @ .., w0, w1, c0, c1] = head else {
        unreachable!();
    };
    need(*layout == MARK, Fault::Layout)?;
    let check = u16::from_be_bytes([*c0, *c1]);
    need(check == ccitt_of(&head[..14]), Fault::HeadCheck(14))?;
    let length = u16::from_be_bytes([*w0, *w1]);
    need(usize::from(length) == word.len(), Fault::FrameLength)?;
    Ok(Parts {
        number: *number,
        coded,
        word,
    })
}
