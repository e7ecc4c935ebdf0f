// Numbers and bytes in ASCII, put at the end of an output that has room for them.
ghost use Rattle.std.specs.Prelude.{◌≡◌, ◌+◌, ◌*◌, ◌<◌, ◌≤◌, ◌++◌, length, vec_len, vec_capacity};
ghost use Rattle.console.specs.Print.{decimal, hex_digit, hex};

use itoa::Buffer;
use std::mem::replace;

// More bytes than any printed line has.
pub(crate) const LINE: usize = 8300;

// Bytes as they are.
pub(crate) fn put(out: &mut Vec<u8>, bytes: &[u8])
    requires { vec_len out.old + length bytes.now ≤ vec_capacity out.old }
    ensures items { out.new.items ≡ out.old.items ++ bytes.now }
    ensures len { vec_len out.new ≡ vec_len out.old + length bytes.now }
    ensures capacity { vec_capacity out.old ≤ vec_capacity out.new }
{
    out.extend_from_slice(bytes).unwrap();
}

// A number in decimal. No u64 has more than 20 digits. (`write!` does not say that it needs no memory where there is room.)
pub(crate) fn put_decimal(out: &mut Vec<u8>, n: u64)
    requires { vec_len out.old + 20 ≤ vec_capacity out.old }
    ensures items { out.new.items ≡ out.old.items ++ decimal n }
    ensures bound { vec_len out.new ≤ vec_len out.old + 20 }
    ensures capacity { vec_capacity out.old ≤ vec_capacity out.new }
{
    put(out, Buffer::new().format(n).as_bytes());
}

// As the definition has it: a table of the digits is no plainer, and the library's `char::from_digit` gives lower case.
fn hex_digit(d: u8) -> u8
    requires { d < 16 }
    ensures { result ≡ hex_digit d }
{
    if d < 10 { b'0' + d } else { b'A' + (d - 10) }
}

// The output with two digits more for each byte. It is held by value, so that its length stays in a register: with a loop over `&mut Vec` the program `line`
// takes 1.2 times as long on short lines.
fn with_hex(mut out: Vec<u8>, bytes: &[u8]) -> Vec<u8>
    requires { vec_len out + 2 * length bytes.now ≤ vec_capacity out }
    ensures items { result.items ≡ out.items ++ hex bytes.now }
    ensures len { vec_len result ≡ vec_len out + 2 * length bytes.now }
    ensures capacity { vec_capacity result ≡ vec_capacity out }
{
    for b in bytes {
        out.push_reserved(hex_digit(*b / 16));
        out.push_reserved(hex_digit(*b % 16));
    }
    out
}

// Two digits for each byte.
pub(crate) fn put_hex(out: &mut Vec<u8>, bytes: &[u8])
    requires { vec_len out.old + 2 * length bytes.now ≤ vec_capacity out.old }
    ensures items { out.new.items ≡ out.old.items ++ hex bytes.now }
    ensures len { vec_len out.new ≡ vec_len out.old + 2 * length bytes.now }
    ensures capacity { vec_capacity out.new ≡ vec_capacity out.old }
{
    let none = Vec::new(*out.allocator());
    let text = replace(out, none);
    replace(out, with_hex(text, bytes)).destroy_empty();
}
