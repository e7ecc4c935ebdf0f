// One rule by itself.
ghost use Rattle.std.specs.Prelude.{◌≡◌};
ghost use Rattle.answer.specs.Refusal.{read, refusal_of};
ghost use Rattle.answer.specs.Rules.{need};

use crate::fault::Fault;

// What is asked holds, or the fault is the answer.
pub fn need(holds: bool, fault: Fault) -> Result<(), Fault>
    ensures { read result ≡ need holds (refusal_of fault) }
{
    if holds { Ok(()) } else { Err(fault) }
}
