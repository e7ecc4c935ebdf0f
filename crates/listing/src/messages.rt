// Messages that codes and generators are both shown with.
use std::array;

// The bytes 00 to FF.
pub(crate) fn every_byte() -> [u8; 256] {
    array::from_fn(|i| i as u8)
}
