// Calls as values, and what each call gave.
use crate::station::Station;
use answer::fault::Fault;
use code::description::Description;
use code::kind::Kind;

#[derive(Clone, Copy, PartialEq, Eq, Debug)]
pub enum Call<'a> {
    Enter {
        number: u8,
        description: Description,
        reach: u16,
    },
    Narrow {
        number: u8,
        reach: u16,
    },
    Retire {
        number: u8,
    },
    Seal {
        number: u8,
        message: &'a [u8],
        out: &'a [u8],
    },
    Take {
        frame: &'a [u8],
    },
    Trial {
        frame: &'a [u8],
        at: usize,
        byte: u8,
    },
}

// The answer, with the output or the frame as it is afterwards.
#[derive(Debug, Drop)]
pub enum Outcome<'a> {
    Done(Result<(), Fault>),
    Wrote(Result<usize, Fault>, Vec<u8>),
    Handed(Result<&'a [u8], Fault>, &'a [u8]),
    Tried(Result<(), Fault>, Vec<u8>),
}

// A list of calls on a new station: what each gave, and the station afterwards.
#[derive(Drop)]
pub struct Ran<'a, K: Kind> {
    pub station: Station<K>,
    pub outcomes: Vec<Outcome<'a>>,
}
