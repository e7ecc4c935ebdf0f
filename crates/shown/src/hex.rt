// Numbers in hexadecimal, in whole bytes.
ghost use Rattle.std.specs.Prelude.{◌≡◌, ◌*◌, Some};
ghost use Rattle.answer.specs.Shown.{hexadecimal};
ghost use Rattle.shown.specs.Hex.{bytes_for, least_bytes};

use std::fmt;

/// A number in upper-case digits, with two at least for each of some bytes.
#[derive(Clone, Copy, PartialEq, Eq, Debug)]
pub struct Hex {
    pub value: u32,
    pub bytes: u8,
}

impl Hex {
    /// A low part or a remainder, in the bytes that the degree of its generator fills.
    pub fn for_degree(degree: u8, value: u32) -> Hex
        ensures value { result.value ≡ value }
        ensures bytes { result.bytes ≡ bytes_for degree }
    {
        Hex {
            value,
            bytes: degree.div_ceil(8),
        }
    }

    /// A number in as few bytes as hold it, at least one.
    pub fn in_few_bytes(value: u32) -> Hex
        ensures value { result.value ≡ value }
        ensures bytes { result.bytes ≡ least_bytes value }
    {
        let bytes = match value {
            0..=0xFF => 1,
            0x100..=0xFFFF => 2,
            0x1_0000..=0xFF_FFFF => 3,
            _ => 4,
        };
        Hex { value, bytes }
    }
}

impl fmt::Display for Hex {
    ghost output = { λ h. Some (hexadecimal (h.bytes * 2) h.value) };

    fn fmt<W: fmt::Write>(&self, f: &mut fmt::Formatter<W>) -> fmt::Result {
        let value = self.value;
        let digits = usize::from(self.bytes) * 2;
        write!(f, "{value:0digits$X}")
    }
}
