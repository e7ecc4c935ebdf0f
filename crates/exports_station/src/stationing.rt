// A station with its changes made, and the calls on it, over any bank. A call made `more` times more gives the same answer every time.
// Each call has its own loop: of one loop around a closure, `again(station, more, |station| station.take(frame))`, the closure's goal `returns` did not close;
// with a `&mut` closure `loop-preserved` did not.
ghost use Rattle.std.specs.Prelude.{◌≡◌, ℕ, List, length};
ghost use Rattle.answer.specs.Refusal.{read};
ghost use Rattle.code.specs.Model.{asked, length_of, written};
ghost use Rattle.station.specs.Calls.{Call, changing, step, trying};
ghost use Rattle.station.specs.Frame.{sealed, taken};
ghost use Rattle.station.specs.Items.{items, seen};
ghost use Rattle.exports_station.specs.Forms.{book_with, plain};

use crate::change::Change;
use crate::form::BookChange;
use answer::fault::Fault;
use code::kind::Kind;
use station::station::Station;

// Makes one change.
pub(crate) fn make<K: Kind>(station: &mut Station<K>, change: Change) -> Result<(), Fault>
    ensures answer { read result ≡ changing (asked (K.model station.old.bank)) (items station.old.book) (plain change) }
    ensures book { items station.new.book ≡ step (asked (K.model station.old.bank)) (items station.old.book) (Call.change (plain change)) }
    ensures bank { K.model station.new.bank ≡ K.model station.old.bank }
{
    match change {
        Change::Enter(number, description, reach) => station.enter(number, description, reach),
        Change::Narrow(number, reach) => station.narrow(number, reach),
        Change::Retire(number) => station.retire(number),
    }
}

// A new station at which the changes were made, one after the other.
pub(crate) fn station_with<K: Kind>(bank: K, changes: &[BookChange]) -> Station<K>
    ensures book { items result.book ≡ book_with (asked (K.model bank)) changes.now }
    ensures bank { K.model result.bank ≡ K.model bank }
{
    let mut station = Station::new(bank);
    for c in changes {
        let _ = make(&mut station, (*c).into());
    }
    station
}

// Seals, and `more` times more.
pub(crate) fn seal<K: Kind>(
    station: &mut Station<K>,
    number: u8,
    message: &[u8],
    out: &mut [u8],
    more: u32,
) -> Result<usize, Fault>
    ensures answer { read result ≡ length_of (sealed (asked (K.model station.old.bank)) (items station.old.book) number message.now (length out.old)) }
    ensures written { out.new ≡ written (sealed (asked (K.model station.old.bank)) (items station.old.book) number message.now (length out.old)) out.old }
{
    let mut answer = station.seal(number, message, out);
    for _ in 0..more {
        answer = station.seal(number, message, out);
    }
    answer
}

// Takes a frame, and `more` times more.
pub(crate) fn take<'f, K: Kind>(
    station: &mut Station<K>,
    frame: &'f [u8],
    more: u32,
) -> Result<&'f [u8], Fault>
    ensures { seen result ≡ taken (asked (K.model station.old.bank)) (items station.old.book) frame.now }
{
    let mut answer = station.take(frame);
    for _ in 0..more {
        answer = station.take(frame);
    }
    answer
}

// Takes a frame with a byte planted, and `more` times more.
pub(crate) fn trial<K: Kind>(
    station: &mut Station<K>,
    frame: &mut [u8],
    at: usize,
    byte: u8,
    more: u32,
) -> Result<(), Fault>
    ensures answer { read result ≡ trying (asked (K.model station.old.bank)) (items station.old.book) frame.old at byte }
    ensures back { frame.new ≡ frame.old }
{
    let mut answer = station.trial(frame, at, byte);
    for _ in 0..more {
        answer = station.trial(frame, at, byte);
    }
    answer
}
