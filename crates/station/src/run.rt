// One call as a value, made at a station.
ghost use Rattle.std.specs.Prelude.{◌≡◌, true, false, is_ok, IfOk};
ghost use Rattle.answer.specs.Refusal.{if_ok};
ghost use Rattle.code.specs.Model.{asked};
ghost use Rattle.station.specs.Calls.{answer, copies, step};
ghost use Rattle.station.specs.Items.{items};
ghost use Rattle.station.specs.Outcomes.{plain_call, outcome_seen};

use crate::call::{Call, Outcome};
use crate::station::Station;
use code::kind::Kind;
use std::alloc::{AllocError, Global};

impl<K: Kind> Station<K> {
    // Makes a call. The output and the frame are copies of what the call shows; without memory for them nothing is done. The other calls need none.
    pub fn perform<'a>(&mut self, heap: Global, call: Call<'a>) -> Result<Outcome<'a>, AllocError>
        ensures answer { IfOk result (λ o. outcome_seen o ≡ answer (asked (K.model self.old.bank)) (items self.old.book) (plain_call call.entry)) }
        ensures needs { copies (plain_call call.entry) ≡ false → is_ok result ≡ true }
        ensures book { items self.new.book ≡ if_ok result (step (asked (K.model self.old.bank)) (items self.old.book) (plain_call call.entry)) (items self.old.book) }
        ensures bank { K.model self.new.bank ≡ K.model self.old.bank }
    {
        match call {
            Call::Enter {
                number,
                description,
                reach,
            } => Ok(Outcome::Done(self.enter(number, description, reach))),
            Call::Narrow { number, reach } => Ok(Outcome::Done(self.narrow(number, reach))),
            Call::Retire { number } => Ok(Outcome::Done(self.retire(number))),
            Call::Seal {
                number,
                message,
                out,
            } => {
                let mut copy = out.to_vec(heap)?;
                let answer = self.seal(number, message, copy.as_mut_slice());
                Ok(Outcome::Wrote(answer, copy))
            }
            Call::Take { frame } => Ok(Outcome::Handed(self.take(frame), frame)),
            Call::Trial { frame, at, byte } => {
                let mut copy = frame.to_vec(heap)?;
                let answer = self.trial(copy.as_mut_slice(), at, byte);
                Ok(Outcome::Tried(answer, copy))
            }
        }
    }
}
