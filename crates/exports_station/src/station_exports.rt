// Stations over kinds 1 to 3, for C. Each call is made at a new station at which the changes were made first, refused ones included.
ghost use Rattle.std.specs.Prelude.{◌≡◌, length};
ghost use Rattle.code.specs.Model.{length_of, written};
ghost use Rattle.station.specs.Calls.{changing, trying};
ghost use Rattle.station.specs.Frame.{sealed, taken};
ghost use Rattle.exports_station.specs.Forms.{kinds_asked, book_with, change_of, told, done};

use crate::form::{BookChange, CallAnswer};
use crate::stationing::{make, seal, station_with, take, trial};
use engine::table::Table;
use kinds::three::three_kinds;

// What one change more would answer.
#[unsafe(no_mangle)]
pub extern "C" fn pukhtamo_change(changes: &[BookChange], last: &BookChange) -> CallAnswer
    ensures { result ≡ told (done (changing kinds_asked (book_with kinds_asked changes.now) (change_of last.now))) }
{
    let mut station = station_with(three_kinds::<Table>(), changes);
    make(&mut station, (*last).into()).into()
}

// Writes the frame of a message at the start of the output, once and `more` times more. The length is the frame's.
#[unsafe(no_mangle)]
pub extern "C" fn pukhtamo_seal(
    changes: &[BookChange],
    number: u8,
    message: &[u8],
    out: &mut [u8],
    more: u32,
) -> CallAnswer
    ensures answer { result ≡ told (length_of (sealed kinds_asked (book_with kinds_asked changes.now) number message.now (length out.old))) }
    ensures written { out.new ≡ written (sealed kinds_asked (book_with kinds_asked changes.now) number message.now (length out.old)) out.old }
{
    let mut station = station_with(three_kinds::<Table>(), changes);
    seal(&mut station, number, message, out, more).into()
}

// Takes a frame, once and `more` times more. The length is the message's, which begins at byte 16 of the frame.
#[unsafe(no_mangle)]
pub extern "C" fn pukhtamo_take(changes: &[BookChange], frame: &[u8], more: u32) -> CallAnswer
    ensures { result ≡ told (length_of (taken kinds_asked (book_with kinds_asked changes.now) frame.now)) }
{
    let mut station = station_with(three_kinds::<Table>(), changes);
    take(&mut station, frame, more).into()
}

// Takes a frame with a byte planted at a place, once and `more` times more. The frame has its own byte back.
#[unsafe(no_mangle)]
pub extern "C" fn pukhtamo_trial(
    changes: &[BookChange],
    frame: &mut [u8],
    at: usize,
    byte: u8,
    more: u32,
) -> CallAnswer
    ensures answer { result ≡ told (done (trying kinds_asked (book_with kinds_asked changes.now) frame.old at byte)) }
    ensures back { frame.new ≡ frame.old }
{
    let mut station = station_with(three_kinds::<Table>(), changes);
    trial(&mut station, frame, at, byte, more).into()
}
