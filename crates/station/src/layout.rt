// The one layout of a frame.

// The first byte of a head.
pub(crate) const MARK: u8 = 1;

// The bytes of a head.
pub(crate) const SIZE: usize = 16;
