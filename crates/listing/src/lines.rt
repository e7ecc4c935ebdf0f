// Lines that are refused, of those that more than one program tries.

/// A call that is none.
pub const OTHER_CALL: &[u8] = b"Q 05";

/// A digit in lower case.
pub const LOWER_CASE: &[u8] = b"R 0a";

/// Half a byte.
pub const HALF_BYTE: &[u8] = b"R 050";

/// A call with no number.
pub const CALL_ALONE: &[u8] = b"R";

/// A byte too many.
pub const BYTE_ADDED: &[u8] = b"R 0506";
