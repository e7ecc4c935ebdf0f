// Longitudinal parity, under the kind number 200: the check is one byte, the sum modulo 2 of the message's bytes.
ghost use Rattle.std.specs.Prelude.{◌≡◌};
ghost use Rattle.answer.specs.Refusal.{read};
ghost use Rattle.answer.specs.Rules.{by_rules};
ghost use Rattle.code.specs.Model.{described_rules};
ghost use Rattle.example_kind.specs.Model.{longitudinal, reach_rules};
ghost use Rattle.example_kind.specs.Laws;

use answer::fault::Fault;
use code::bytes::sum;
use code::description::{Description, Sheet};
use code::fields::{fitting, lawful_reach, one_generator};
use code::kind::Kind;

// the kind number
const KIND: u8 = 200;

#[derive(Clone, Copy, PartialEq, Eq, Debug)]
pub struct Longitudinal;

// What is asked of a description: X^8 + 1 and nothing else.
fn fields(d: Description) -> Result<(), Fault>
    ensures { read result ≡ by_rules (described_rules longitudinal d) tt }
{
    if d.kind != KIND {
        return Err(Fault::Unserved);
    }
    if d.degree != 8 {
        return Err(Fault::KindField(3));
    }
    one_generator(d)?;
    if d.low != 1 {
        return Err(Fault::KindLow(4));
    }
    Ok(())
}

// What is asked of a reach: 2 to 4,096 bytes.
fn reaches(reach: u16) -> Result<(), Fault>
    ensures { read result ≡ by_rules (reach_rules reach) tt }
{
    if !lawful_reach(1, 1, reach) {
        return Err(Fault::Reach);
    }
    Ok(())
}

impl Kind for Longitudinal {
    ghost model = { λ _. longitudinal };

    ghost keeps = { λ k. Laws.keeps };

    fn serves(&self, kind: u8) -> bool {
        kind == KIND
    }

    fn admit(&mut self, d: Description, reach: u16) -> Result<(), Fault> {
        fields(d)?;
        reaches(reach)
    }

    fn sheet(&mut self, d: Description) -> Result<Sheet, Fault> {
        fields(d)?;
        Ok(Sheet {
            check: 1,
            tuple: 1,
            burst: 8,
            few: 1,
            odd: true,
        })
    }

    fn check(&mut self, d: Description, message: &[u8], out: &mut [u8]) -> Result<usize, Fault> {
        fields(d)?;
        fitting(message, 1, 1, out.len())?;
        out[0] = sum(message);
        Ok(1)
    }
}
