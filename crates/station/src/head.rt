// The head of a frame.
ghost use Rattle.std.specs.Prelude.{◌≡◌};
ghost use Rattle.station.specs.Frame.{head};

use crate::ccitt::ccitt_of;
use crate::layout::MARK;
use code::description::Description;

// The head, for a word of `word` bytes: the layout, the number, the description, the word's length, and the check of these.
pub(crate) fn head_of(number: u8, d: Description, word: u16) -> [u8; 16]
    ensures { result ≡ head number d word }
{
    let mut head = [0; 16];
    head[0] = MARK;
    head[1] = number;
    head[2..12].copy_from_slice(&<[u8; 10]>::from(d));
    head[12..14].copy_from_slice(&word.to_be_bytes());
    let check = ccitt_of(&head[..14]);
    head[14..].copy_from_slice(&check.to_be_bytes());
    head
}
