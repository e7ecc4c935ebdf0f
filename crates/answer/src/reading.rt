// How a fault and a result are read.
ghost use Rattle.std.specs.Prelude.{◌≡◌};
ghost use Rattle.answer.specs.Refusal.{refusal_of, read, number_of};

use crate::fault::{Fault, Layer};

impl Fault {
    // The number of the fault.
    pub fn number(self) -> u8
        ensures { result ≡ (refusal_of self).number }
    {
        match self {
            Fault::Command => 1,
            Fault::Digit(_) => 2,
            Fault::Operands(_) => 3,
            Fault::LineLimit(_) => 4,
            Fault::Unserved => 11,
            Fault::EngineDegree | Fault::KindField(_) => 12,
            Fault::EngineLow | Fault::KindLow(_) => 13,
            Fault::Terms(_) => 14,
            Fault::NotCarried => 15,
            Fault::Reach => 16,
            Fault::Period(_) => 17,
            Fault::InUse => 21,
            Fault::Full => 22,
            Fault::NotHeld => 23,
            Fault::NotBelow => 24,
            Fault::Message(_) => 31,
            Fault::OverReach => 32,
            Fault::Output(_) => 33,
            Fault::ShortFrame(_) => 41,
            Fault::Layout => 42,
            Fault::HeadCheck(_) => 43,
            Fault::FrameLength => 44,
            Fault::Description(_) => 45,
            Fault::WordLength => 46,
            Fault::Check(_) => 47,
            Fault::Outside(_) => 48,
        }
    }

    // The layer that refused.
    pub fn layer(self) -> Layer
        ensures { result ≡ (refusal_of self).layer }
    {
        match self {
            Fault::Command | Fault::Digit(_) | Fault::Operands(_) | Fault::LineLimit(_) =>
                Layer::Line,
            Fault::EngineDegree | Fault::EngineLow | Fault::NotCarried => Layer::Engine,
            Fault::Unserved
            | Fault::KindField(_)
            | Fault::KindLow(_)
            | Fault::Terms(_)
            | Fault::Reach
            | Fault::Period(_) => Layer::Kind,
            Fault::InUse | Fault::Full | Fault::NotHeld | Fault::NotBelow => Layer::Book,
            Fault::Message(_)
            | Fault::OverReach
            | Fault::Output(_)
            | Fault::ShortFrame(_)
            | Fault::Layout
            | Fault::HeadCheck(_)
            | Fault::FrameLength
            | Fault::Description(_)
            | Fault::WordLength
            | Fault::Check(_)
            | Fault::Outside(_) => Layer::Frame,
        }
    }

    // The place: a byte of the head or the frame, a length, or a byte of the line.
    pub fn place(self) -> usize
        ensures { result ≡ (refusal_of self).place }
    {
        match self {
            Fault::Command | Fault::Layout => 0,
            Fault::InUse | Fault::Full | Fault::NotHeld => 1,
            Fault::Unserved => 2,
            Fault::EngineDegree => 3,
            Fault::EngineLow | Fault::NotCarried => 4,
            Fault::Reach
            | Fault::NotBelow
            | Fault::OverReach
            | Fault::FrameLength
            | Fault::WordLength => 12,
            Fault::Digit(place)
            | Fault::Operands(place)
            | Fault::LineLimit(place)
            | Fault::KindField(place)
            | Fault::KindLow(place)
            | Fault::Terms(place)
            | Fault::Period(place)
            | Fault::Message(place)
            | Fault::Output(place)
            | Fault::ShortFrame(place)
            | Fault::HeadCheck(place)
            | Fault::Description(place)
            | Fault::Check(place)
            | Fault::Outside(place) => place,
        }
    }
}

// The number of any result: 0 is success.
pub fn number_of<T>(res: &Result<T, Fault>) -> u8
    ensures { result ≡ number_of (read res.now) }
{
    match res {
        Ok(_) => 0,
        Err(fault) => fault.number(),
    }
}
