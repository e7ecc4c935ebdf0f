// What a line is: its command and its digits, which stay where they are in the line.
ghost use Rattle.std.specs.Prelude.{◌≡◌, ◌*◌, ◌%◌, ◌≤◌, length, IfOk};
ghost use Rattle.console.specs.Grammar.{is_digit, Names, letter_of, good_digits, counted_of, command_of, line_of, line_seen};
ghost use Rattle.console.specs.Sized.{Sized};

use crate::decode::LONGEST;
use answer::fault::Fault;

// The longest line: a letter, a space and two digits for each byte of the longest frame.
const LIMIT: usize = 2 + 2 * LONGEST;

// A command, which a line names by its letter.
#[derive(Clone, Copy, Debug, PartialEq, Eq)]
pub enum Command {
    Entry,
    Narrowing,
    Retirement,
    Message,
    Frame,
}

impl TryFrom<u8> for Command {
    type Error = Fault;

    ghost try_from_gives = { Names };

    fn try_from(letter: u8) -> Result<Command, Fault> {
        match letter {
            b'E' => Ok(Command::Entry),
            b'N' => Ok(Command::Narrowing),
            b'R' => Ok(Command::Retirement),
            b'M' => Ok(Command::Message),
            b'F' => Ok(Command::Frame),
            _ => Err(Fault::Command),
        }
    }
}

// A line: a command with its hexadecimal digits, or one that does nothing.
#[derive(Clone, Copy, Debug, PartialEq, Eq)]
pub enum Line<'a> {
    Command(Command, &'a [u8]),
    Remark,
    Empty,
}

fn is_digit(b: u8) -> bool
    ensures { result ≡ is_digit b }
{
    matches!(b, b'0'..=b'9' | b'A'..=b'F')
}

// How many digits stand at the start.
fn digits_at_start(bytes: &[u8]) -> usize
    ensures value { result ≡ good_digits bytes.now }
    ensures bound { result ≤ length bytes.now }
{
    bytes
        .iter()
        .position(|b| !is_digit(*b))
        .unwrap_or(bytes.len())
}

// That the digits are no more than LIMIT lets through stays in three contracts: a type for them would hold a slice and be taken apart again at once.
// A command with good digits, where they make the right number of bytes.
fn counted(command: Command, digits: &[u8], len: usize) -> Result<Line<'_>, Fault>
    requires { (length digits.now ≤ 2 * LONGEST) × (length digits.now % 2 ≡ 0) }
    ensures line { line_seen result ≡ counted_of (letter_of command) digits.now len }
    ensures sized { IfOk result Sized }
{
    match (command, digits.len() / 2) {
        (Command::Entry, 13)
        | (Command::Narrowing, 3)
        | (Command::Retirement, 1)
        | (Command::Message, 1..)
        | (Command::Frame, _) => Ok(Line::Command(command, digits)),
        _ => Err(Fault::Operands(len)),
    }
}

// A command's line of `len` bytes, by what stands after its letter and its space.
fn command_of(command: Command, digits: &[u8], len: usize) -> Result<Line<'_>, Fault>
    requires { length digits.now ≤ 2 * LONGEST }
    ensures line { line_seen result ≡ command_of (letter_of command) digits.now len }
    ensures sized { IfOk result Sized }
{
    let good = digits_at_start(digits);
    if good < digits.len() {
        return Err(Fault::Digit(2 + good));
    }
    if digits.len() % 2 != 0 {
        return Err(Fault::Digit(len));
    }
    counted(command, digits, len)
}

// What a line is, or the refusal of the first rule that it breaks.
pub fn line_of(line: &[u8]) -> Result<Line<'_>, Fault>
    ensures line { line_seen result ≡ line_of line.now }
    ensures sized { IfOk result Sized }
{
    match line {
        [] => Ok(Line::Empty),
        [b'#', ..] => Ok(Line::Remark),
        _ if line.len() > LIMIT => Err(Fault::LineLimit(LIMIT)),
        [letter, rest @ ..] => {
            let command = Command::try_from(*letter)?;
            match rest {
                [b' ', digits @ ..] => command_of(command, digits, line.len()),
                _ => Err(Fault::Digit(1)),
            }
        }
    }
}
