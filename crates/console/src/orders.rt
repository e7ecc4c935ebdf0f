// The call of a command with given bytes.
ghost use Rattle.std.specs.Prelude.{◌≡◌, ℕ, ◌*◌, ◌<◌, ◌≤◌, length, drop, IfOk, IfSome, slice_index};
ghost use Rattle.answer.specs.Refusal.{read};
ghost use Rattle.code.specs.Model.{asked};
ghost use Rattle.station.specs.Calls.{answer, step, done};
ghost use Rattle.station.specs.Frame.{sealed, taken};
ghost use Rattle.station.specs.Items.{items, seen};
ghost use Rattle.console.specs.Deeds.{call_by, enters_by, narrows_by, retires_by};
ghost use Rattle.console.specs.Printed.{printed_answer, printed_lent};
ghost use Rattle.console.specs.Sized.{Digits};

use crate::decode::LONGEST;
use crate::line::Command;
use answer::fault::Fault;
use code::description::Description;
use code::kind::Kind;
use station::station::Station;

// E: number, description and reach.
fn enter<K: Kind>(station: &mut Station<K>, bytes: &[u8]) -> Result<(), Fault>
    requires { length bytes.now ≡ 13 }
    ensures answer { done (read result) ≡ answer (asked (K.model station.old.bank)) (items station.old.book) (enters_by bytes.now) }
    ensures book { items station.new.book ≡ step (asked (K.model station.old.bank)) (items station.old.book) (enters_by bytes.now) }
    ensures bank { K.model station.new.bank ≡ K.model station.old.bank }
{
    match bytes {
        [number, description @ .., high, low] => station.enter(
            *number,
            Description::from(*description.as_array().unwrap()),
            u16::from_be_bytes([*high, *low]),
        ),
        _ => unreachable!(),
    }
}

// N: number and reach.
fn narrow<K: Kind>(station: &mut Station<K>, bytes: &[u8]) -> Result<(), Fault>
    requires { length bytes.now ≡ 3 }
    ensures answer { done (read result) ≡ answer (asked (K.model station.old.bank)) (items station.old.book) (narrows_by bytes.now) }
    ensures book { items station.new.book ≡ step (asked (K.model station.old.bank)) (items station.old.book) (narrows_by bytes.now) }
    ensures bank { K.model station.new.bank ≡ K.model station.old.bank }
{
    match bytes {
        [number, high, low] => station.narrow(*number, u16::from_be_bytes([*high, *low])),
        _ => unreachable!(),
    }
}

// R: the number.
fn retire<K: Kind>(station: &mut Station<K>, bytes: &[u8]) -> Result<(), Fault>
    requires { length bytes.now ≡ 1 }
    ensures answer { done (read result) ≡ answer (asked (K.model station.old.bank)) (items station.old.book) (retires_by bytes.now) }
    ensures book { items station.new.book ≡ step (asked (K.model station.old.bank)) (items station.old.book) (retires_by bytes.now) }
    ensures bank { K.model station.new.bank ≡ K.model station.old.bank }
{
    station.retire(bytes[0])
}

// M: number and message. Lends the frame, which is written into the output.
fn seal<'o, K: Kind>(
    station: &mut Station<K>,
    bytes: &[u8],
    output: &'o mut [u8; LONGEST],
) -> Result<&'o [u8], Fault>
    requires { 0 < length bytes.now }
    ensures answer { seen result ≡ sealed (asked (K.model station.old.bank)) (items station.old.book) (slice_index bytes.now 0) (drop 1 bytes.now) LONGEST }
    ensures sized { IfOk result (λ frame. length frame.now ≤ LONGEST) }
    ensures book { station.new.book ≡ station.old.book }
    ensures bank { K.model station.new.bank ≡ K.model station.old.bank }
{
    let length = station.seal(bytes[0], &bytes[1..], output)?;
    Ok(&output[..length])
}

// F: the frame. Lends the message, which stays where it is in the frame.
fn take<'f, K: Kind>(station: &mut Station<K>, frame: &'f [u8]) -> Result<&'f [u8], Fault>
    ensures answer { seen result ≡ taken (asked (K.model station.old.bank)) (items station.old.book) frame.now }
    ensures sized { IfOk result (λ message. length message.now ≤ length frame.now) }
    ensures book { station.new.book ≡ station.old.book }
    ensures bank { K.model station.new.bank ≡ K.model station.old.bank }
{
    station.take(frame)
}

// The call of a command, and what is shown of its answer: a frame or a message, and nothing of a change.
pub(crate) fn call<'b, K: Kind>(
    station: &mut Station<K>,
    command: Command,
    bytes: &'b [u8],
    output: &'b mut [u8; LONGEST],
) -> Result<Option<&'b [u8]>, Fault>
    requires { Digits command (2 * length bytes.now) }
    ensures answer { (n : ℕ) → printed_lent n result ≡ printed_answer n (answer (asked (K.model station.old.bank)) (items station.old.book) (call_by command bytes.now)) }
    ensures sized { IfOk result (λ shown. IfSome shown (λ s. length s.now ≤ LONGEST)) }
    ensures book { items station.new.book ≡ step (asked (K.model station.old.bank)) (items station.old.book) (call_by command bytes.now) }
    ensures bank { K.model station.new.bank ≡ K.model station.old.bank }
{
    match command {
        Command::Entry => enter(station, bytes).map(|()| None),
        Command::Narrowing => narrow(station, bytes).map(|()| None),
        Command::Retirement => retire(station, bytes).map(|()| None),
        Command::Message => seal(station, bytes, output).map(Some),
        Command::Frame => take(station, bytes).map(Some),
    }
}
