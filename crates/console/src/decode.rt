// Hexadecimal digits as bytes.
ghost use Rattle.std.specs.Prelude.{◌≡◌, ◌*◌, ◌/◌, ◌<◌, ◌≤◌, length};
ghost use Rattle.console.specs.Decode.{digit_value, decoded};

// Bytes of the longest frame.
pub(crate) const LONGEST: usize = 4112;

// Of a digit that a line has let through. (A `match` on the byte says what the definition says: the library's `to_digit` takes a `char`, and answers an Option.)
fn digit_value(c: u8) -> u8
    ensures value { result ≡ digit_value c }
    ensures bound { result < 16 }
{
    match c {
        b'0'..=b'9' => c - b'0',
        b'A'..=b'F' => c - b'A' + 10,
        _ => 0,
    }
}

// Puts the bytes of the digits at the start of the buffer, and lends them. It refuses nothing: a decoder that refuses what is no digit, as the crate `hex`
// does, would be unwrapped here, by a fact about the digits that every contract from `line_of` on had to hand down.
// (By index: over a `zip` with `iter_mut` the goal `returns-clause-bytes` did not close, since nothing is known there of the bytes written.)
pub(crate) fn decode<'b>(digits: &[u8], buffer: &'b mut [u8; LONGEST]) -> &'b [u8]
    requires { length digits.now ≤ 2 * LONGEST }
    ensures bytes { result.now ≡ decoded digits.now }
    ensures len { length result.now ≡ length digits.now / 2 }
{
    let (pairs, _) = digits.as_chunks::<2>();
    for (i, [high, low]) in pairs.iter().enumerate() {
        buffer[i] = 16 * digit_value(*high) + digit_value(*low);
    }
    &buffer[..pairs.len()]
}
