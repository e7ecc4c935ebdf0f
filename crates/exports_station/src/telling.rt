// What C passes and is given, from and to the types of the calls.
ghost use Rattle.std.specs.Prelude.{◌≡◌};
ghost use Rattle.answer.specs.Refusal.{read};
ghost use Rattle.code.specs.Model.{length_of};
ghost use Rattle.station.specs.Items.{seen};
ghost use Rattle.exports_station.specs.Forms.{change_of, done, plain, told};

use crate::change::Change;
use crate::form::{BookChange, CallAnswer};
use answer::fault::Fault;

impl From<BookChange> for Change {
    ghost from_gives = { λ c x. plain x ≡ change_of c };

    fn from(c: BookChange) -> Change {
        match c.call {
            1 => Change::Enter(c.number, c.code, c.reach),
            2 => Change::Narrow(c.number, c.reach),
            _ => Change::Retire(c.number),
        }
    }
}

impl From<Result<usize, Fault>> for CallAnswer {
    ghost from_gives = { λ r a. a ≡ told (read r) };

    fn from(answer: Result<usize, Fault>) -> CallAnswer {
        match answer {
            Ok(length) => CallAnswer {
                number: 0,
                place: 0,
                length,
            },
            Err(fault) => CallAnswer {
                number: fault.number(),
                place: fault.place(),
                length: 0,
            },
        }
    }
}

// A call that hands nothing over.
impl From<Result<(), Fault>> for CallAnswer {
    ghost from_gives = { λ r a. a ≡ told (done (read r)) };

    fn from(answer: Result<(), Fault>) -> CallAnswer {
        answer.map(|()| 0).into()
    }
}

// A call that hands bytes over: only their length is told.
impl From<Result<&[u8], Fault>> for CallAnswer {
    ghost from_gives = { λ r a. a ≡ told (length_of (seen r)) };

    fn from(answer: Result<&[u8], Fault>) -> CallAnswer {
        answer.map(|bytes| bytes.len()).into()
    }
}
