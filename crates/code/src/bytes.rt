// Numbers in bytes, high byte first; and the sum of bytes, which is no number in bytes but reads them as they come.
ghost use Rattle.std.specs.Prelude.{◌≡◌, ◌+◌, ◌*◌, ◌^◌, ◌<◌, ◌≤◌, ◌++◌, length, take, drop};
ghost use Rattle.words.specs.Digits.{digits};
ghost use Rattle.words.specs.Words.{plain};
ghost use Rattle.code.specs.Output.{has_room, with_number};

use crate::fields::short;

// Writes a number in `count` bytes at a place of an output, and keeps the rest; where it has no room there, all is kept: so no
// condition is left to a caller.
pub fn put(out: &mut [u8], at: usize, count: usize, value: u32)
    ensures { out.new ≡ with_number out.old at count value }
{
    if has_room(out.len(), at, count, value) {
        write(out, at, count, value);
    }
}

// Whether a number fits `count` bytes, at most four, and these an output at a place.
fn has_room(room: usize, at: usize, count: usize, value: u32) -> bool
    ensures { result ≡ has_room room at count value }
{
    count <= 4 && count <= room && at <= room - count && short(8 * count as u8, value)
}

// Writes a number that has room.
fn write(out: &mut [u8], at: usize, count: usize, value: u32)
    requires { (at + count ≤ length out.old) × ((count ≤ 4) × (value < 2 ^ (8 * count))) }
    ensures { out.new ≡ take at out.old ++ (digits count value ++ drop (at + count) out.old) }
{
    out[at..at + count].copy_from_slice(&value.to_be_bytes()[4 - count..]);
}

// The sum of bytes, modulo 2 in each of the eight bits.
pub fn sum(bytes: &[u8]) -> u8
    ensures { result ≡ plain bytes.now }
{
    bytes.iter().fold(0, |total, b| total ^ *b)
}
