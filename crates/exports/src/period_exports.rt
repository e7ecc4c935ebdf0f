// The period call for C.
ghost use Rattle.std.specs.Prelude.{◌≡◌};
ghost use Rattle.answer.specs.Refusal.{read, number_of};
ghost use Rattle.exports.specs.Calls.{walking, period_in, steps_in};

use answer::fault::Fault;
use poly::period::period;
use poly::walk::Walk;

// The answer of the period call as numbers: so the C interface has it.
#[repr(C)]
#[derive(Clone, Copy, PartialEq, Eq, Debug)]
pub struct PeriodAnswer {
    // 0, or the number of the refusal
    pub number: u8,
    // the period, or 0 where there is none up to 32,768
    pub period: u16,
    // the steps made: the period, or 32,768
    pub steps: u16,
}

impl From<Result<Walk, Fault>> for PeriodAnswer {
    fn from(answer: Result<Walk, Fault>) -> PeriodAnswer
        ensures number { result.number ≡ number_of (read answer) }
        ensures period { result.period ≡ period_in (read answer) }
        ensures steps { result.steps ≡ steps_in (read answer) }
    {
        match answer {
            Ok(walk) => PeriodAnswer {
                number: 0,
                period: walk.period.unwrap_or(0),
                steps: walk.steps,
            },
            Err(fault) => PeriodAnswer {
                number: fault.number(),
                period: 0,
                steps: 0,
            },
        }
    }
}

// The least i from 1 to 32,768 for which X^i, divided by X^degree + low, leaves 1; a generator of degree 2 to 32.
#[unsafe(no_mangle)]
pub extern "C" fn pukhtamo_period(degree: u8, low: u32) -> PeriodAnswer
    ensures number { result.number ≡ number_of (walking degree low) }
    ensures period { result.period ≡ period_in (walking degree low) }
    ensures steps { result.steps ≡ steps_in (walking degree low) }
{
    PeriodAnswer::from(period(degree, low))
}
