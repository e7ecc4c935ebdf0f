// The period of a generator: the least i from 1 upwards for which X^i leaves 1.
ghost use Rattle.std.specs.Prelude.{◌≡◌, IfOk};
ghost use Rattle.answer.specs.Refusal.{read};
ghost use Rattle.answer.specs.Rules.{by_rules};
ghost use Rattle.poly.specs.Period.{Walked, walk_of};
ghost use Rattle.poly.specs.Rules.{generator_rules};

use crate::generator::Generator;
use crate::long_division::twice_at_top;
use crate::walk::Walk;
use answer::fault::Fault;

// How far the walk looks.
const LIMIT: u16 = 32768;

impl Generator {
    // The period, if there is one up to the limit, and the steps that were made to see that: the powers of X one after the other, at
    // the top of 32 bits, until one leaves 1.
    pub fn period(self) -> Walk
        ensures answer { result ≡ walk_of self.degree self.low }
        ensures least { Walked self.degree self.low 32768 result.period result.steps }
    {
        let up = 32 - self.degree;
        let low = self.low << up;
        let one = 1u32 << up;
        let mut power = one;
        for steps in 1..=LIMIT {
            power = twice_at_top(low, power);
            if power == one {
                return Walk {
                    period: Some(steps),
                    steps,
                };
            }
        }
        Walk {
            period: None,
            steps: LIMIT,
        }
    }
}

// The period of X^degree + low, a generator of degree 2 to 32, as an `Option`, and the steps made.
pub fn period(degree: u8, low: u32) -> Result<Walk, Fault>
    ensures answer { read result ≡ by_rules (generator_rules 2 degree low) (walk_of degree low) }
    ensures least { IfOk result (λ w. Walked degree low 32768 w.period w.steps) }
{
    let generator = Generator::new(degree, low)?;
    Ok(generator.period())
}
