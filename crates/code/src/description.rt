// What a code is described by, and what it promises.

// A code as a site enters it. Fields that a kind does not use are zero. It crosses to C as it is.
#[repr(C)]
#[derive(Clone, Copy, Default, PartialEq, Eq, Debug)]
pub struct Description {
    // a number: anyone may add a kind under one of its own, and a site may type in any
    pub kind: u8,
    // first generator: X^degree + low
    pub degree: u8,
    pub low: u32,
    // second generator: X^degree2 + low2
    pub degree2: u8,
    pub low2: u16,
    // bytes in a tuple
    pub tuple: u8,
}

// What a code promises: the bytes of its check and of a tuple, the longest burst that is always noticed,
// how many flips are, and whether every odd number is.
#[derive(Clone, Copy, PartialEq, Eq, Debug)]
pub struct Sheet {
    pub check: u16,
    pub tuple: u16,
    pub burst: u16,
    pub few: u16,
    pub odd: bool,
}
