// Every refusal of every layer. Each has a number, a layer and a place, and is passed up unchanged with `?`.

// The layer that refuses.
#[derive(Clone, Copy, PartialEq, Eq, Debug)]
pub enum Layer {
    Line,
    Engine,
    Kind,
    Book,
    Frame,
}

// A case that can stand at several places carries its place; the others have one.
#[derive(Clone, Copy, PartialEq, Eq, Debug)]
pub enum Fault {
    // line: the first byte is no command
    Command,
    // line: no space after the command, a bad digit or half a byte
    Digit(usize),
    // line: a wrong number of bytes for the command
    Operands(usize),
    // line: longer than the limit, which is the place
    LineLimit(usize),
    // kind: the kind is not served
    Unserved,
    // engine and period call: a degree out of range
    EngineDegree,
    // kind: a degree, an unused field or the tuple bytes
    KindField(usize),
    // engine and period call: a low part too long or without a constant term
    EngineLow,
    // kind: the same of a first or second low part
    KindLow(usize),
    // kind: terms of the wrong parity
    Terms(usize),
    // engine: the generator is not carried
    NotCarried,
    // kind: the reach is not lawful
    Reach,
    // kind: the period is too short
    Period(usize),
    // book: the number is in use
    InUse,
    // book: all entries are taken
    Full,
    // book: the number is not held
    NotHeld,
    // book: not below the present reach
    NotBelow,
    // frame: a message that is empty or no multiple of the tuple
    Message(usize),
    // frame: a word over the reach
    OverReach,
    // frame: the output is too short
    Output(usize),
    // frame: shorter than a head and one byte
    ShortFrame(usize),
    // frame: another layout
    Layout,
    // frame: the head's check
    HeadCheck(usize),
    // frame: a length that is not the head's and the word's
    FrameLength,
    // frame: another description than the one held
    Description(usize),
    // frame: a word not longer than its check, or no multiple of the tuple
    WordLength,
    // frame: the check differs
    Check(usize),
    // frame: a trial outside the frame
    Outside(usize),
}
