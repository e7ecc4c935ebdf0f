// What C passes and is given, beside descriptions, which cross as they are.
use code::description::Description;

// A change of a book. Call 1 enters the code, call 2 narrows, and any other retires. A number for the call: the C interface has it so.
#[repr(C)]
#[derive(Clone, Copy, Debug, PartialEq, Eq)]
pub struct BookChange {
    pub call: u8,
    pub number: u8,
    pub code: Description,
    pub reach: u16,
}

// The answer of a call, as the C interface has it.
#[repr(C)]
#[derive(Clone, Copy, Debug, PartialEq, Eq)]
pub struct CallAnswer {
    // 0, or the number of the refusal
    pub number: u8,
    // the place of the refusal
    pub place: usize,
    // the length of what was written or handed over
    pub length: usize,
}
