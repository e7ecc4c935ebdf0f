// Kind 3, the weighted sum. It works without an engine.
ghost use Rattle.std.specs.Prelude.{◌≡◌, ◌*◌, ◌≤◌, [], ◌∷◌, ◌++◌, length, drop, ◌==◌};
ghost use Rattle.answer.specs.declared.fault.Layer.TheVariants.{Kind};
ghost use Rattle.answer.specs.Refusal.{read, refusal};
ghost use Rattle.answer.specs.Rules.{rule, by_rules};
ghost use Rattle.words.specs.Tuples.{tuples};
ghost use Rattle.code.specs.Answered.{Answers};
ghost use Rattle.code.specs.Model.{described_rules};
ghost use Rattle.code.specs.WeightedModel.{first_sum, second_sum, weighted_sizes, weighted_reaches, weighted_model};
ghost use Rattle.code.proofs.WeightedKeeps.{weighted-keeps};
ghost use Rattle.weighted.specs.Described.{description_of};

use crate::weighted::Weighted;
use answer::fault::Fault;
use code::bytes::put;
use code::description::{Description, Sheet};
use code::fields::{at_least, fitting, generator_at, lawful_reach};
use code::kind::Kind;

// the kind number
const KIND: u8 = 3;

#[derive(Clone, Copy, PartialEq, Eq, Debug)]
pub struct WeightedSum;

// 11 and 12: the kind number, the degrees and the tuple bytes.
fn shape(d: Description) -> Result<(), Fault>
    ensures { read result ≡ by_rules (rule (d.kind == 3) (refusal 11 Kind 2) ∷ weighted_sizes d) tt }
{
    if d.kind != KIND {
        return Err(Fault::Unserved);
    }
    if !matches!(d.degree, 8 | 16 | 32) {
        return Err(Fault::KindField(3));
    }
    if !matches!(d.degree2, 2..=16) || d.degree2 > d.degree {
        return Err(Fault::KindField(8));
    }
    if d.tuple != d.degree / 8 {
        return Err(Fault::KindField(11));
    }
    Ok(())
}

impl Weighted {
    // All that every call asks of a description, and what it describes.
    fn new(d: Description) -> Result<Weighted, Fault>
        ensures { Answers result (described_rules weighted_model d) (λ w. description_of w ≡ d) }
    {
        shape(d)?;
        let first = generator_at(d.degree, d.low, 4)?;
        let second = generator_at(d.degree2, u32::from(d.low2), 9)?;
        if second.terms() % 2 != 0 {
            return Err(Fault::Terms(9));
        }
        Ok(Weighted {
            first,
            second,
            tuple: d.tuple,
        })
    }

    // 16 and 17: the reach, then both periods.
    fn reaches(self, reach: u16) -> Result<(), Fault>
        ensures { read result ≡ by_rules (weighted_reaches (description_of self) reach) tt }
    {
        let tuple = u16::from(self.tuple);
        if !lawful_reach(tuple, 2 * tuple, reach) {
            return Err(Fault::Reach);
        }
        if !at_least(self.first.period().period, reach / tuple - 1) {
            return Err(Fault::Period(4));
        }
        if !at_least(self.second.period().period, 8 * tuple) {
            return Err(Fault::Period(9));
        }
        Ok(())
    }

    fn sheet(self) -> Sheet
        ensures { result ≡ weighted_model.sheet (description_of self) }
    {
        let tuple = u16::from(self.tuple);
        Sheet {
            check: 2 * tuple,
            tuple,
            burst: u16::from(self.first.degree()),
            few: 3,
            odd: true,
        }
    }

    // The two check tuples of a message.
    fn check_tuples(self, message: &[u8]) -> (u32, u32)
        ensures first { result.0 ≡ first_sum (description_of self) (tuples self.tuple message.now) }
        ensures second { result.1 ≡ second_sum (description_of self) (tuples self.tuple message.now) }
    {
        let sums = self.sums(message);
        let first = self.first.remainder(sums.horner, 1);
        let second = self.second.remainder(sums.total ^ first, 0);
        (first, second)
    }

    // Writes them at the start of an output.
    fn write_check(self, message: &[u8], out: &mut [u8])
        requires { 2 * self.tuple ≤ length out.old }
        ensures { out.new ≡ weighted_model.check (description_of self) message.now ++ drop (2 * self.tuple) out.old }
    {
        let (first, second) = self.check_tuples(message);
        let tuple = usize::from(self.tuple);
        put(out, 0, tuple, first);
        put(out, tuple, tuple, second);
    }
}

impl Kind for WeightedSum {
    ghost model = { λ _. weighted_model };

    ghost keeps = { λ k. weighted-keeps };

    fn serves(&self, kind: u8) -> bool {
        kind == KIND
    }

    fn admit(&mut self, d: Description, reach: u16) -> Result<(), Fault> {
        let w = Weighted::new(d)?;
        w.reaches(reach)
    }

    fn sheet(&mut self, d: Description) -> Result<Sheet, Fault> {
        let w = Weighted::new(d)?;
        Ok(w.sheet())
    }

    fn check(&mut self, d: Description, message: &[u8], out: &mut [u8]) -> Result<usize, Fault> {
        let w = Weighted::new(d)?;
        let sheet = w.sheet();
        fitting(message, sheet.tuple, sheet.check, out.len())?;
        w.write_check(message, out);
        Ok(usize::from(sheet.check))
    }
}
