// A kind over any engine: the check of a message follows from its remainder.
ghost use Rattle.std.specs.Prelude.{◌≡◌, IfOk, OnOk};
ghost use Rattle.answer.specs.Refusal.{read};
ghost use Rattle.answer.specs.Rules.{by_rules};
ghost use Rattle.code.specs.Answered.{Answers};
ghost use Rattle.code.specs.Catalogue.{crc};
ghost use Rattle.code.specs.CrcModel.{crc_reaches, check_bytes};
ghost use Rattle.code.specs.Model.{asked, described_rules};
ghost use Rattle.crc.specs.Admitted.{admitted};
ghost use Rattle.crc.specs.Form.{Names, over};

use crate::admitted_crc::AdmittedCrc;
use crate::form::{Form, fields};
use answer::fault::Fault;
use code::bytes::put;
use code::description::{Description, Sheet};
use code::fields::{at_least, fitting, lawful_reach};
use code::kind::Kind;
use engine::engine::Engine;
use poly::generator::Generator;
use std::marker::PhantomData;

#[derive(Debug, Drop)]
pub struct OverEngine<E, F> {
    pub(crate) engine: E,
    form: PhantomData<F>,
}

// The check bytes of a degree.
pub(crate) fn check_bytes(degree: u8) -> u16
    ensures { result ≡ check_bytes degree }
{
    u16::from(degree.div_ceil(8))
}

// A lawful reach, and a period of at least its bits.
fn reaches(generator: Generator, reach: u16) -> Result<(), Fault>
    ensures { read result ≡ by_rules (crc_reaches (crc generator.degree generator.low) reach) tt }
{
    if !lawful_reach(1, check_bytes(generator.degree()), reach) {
        return Err(Fault::Reach);
    }
    if !at_least(generator.period().period, 8 * reach) {
        return Err(Fault::Period(4));
    }
    Ok(())
}

impl<E: Engine, F: Form> OverEngine<E, F> {
    // The kind over this engine.
    pub fn new(engine: E) -> OverEngine<E, F>
        ensures { result.engine ≡ engine }
    {
        OverEngine {
            engine,
            form: PhantomData,
        }
    }

    // Asks all of a description, which describes a generator; then the engine has it, and a register of zero.
    fn fit(&mut self, d: Description) -> Result<Generator, Fault>
        ensures answer { Answers result (described_rules (over F.form (E.carries_of self.old.engine)) d) (Names d) }
        ensures carries { E.carries_of self.new.engine ≡ E.carries_of self.old.engine }
        ensures degree { OnOk result (E.degree_of self.new.engine ≡ d.degree) }
        ensures low { OnOk result (E.low_of self.new.engine ≡ d.low) }
        ensures register { OnOk result (E.register_of self.new.engine ≡ 0) }
    {
        let generator = fields::<F>(d)?;
        self.engine.set(d.degree, d.low)?;
        Ok(generator)
    }

    // Asks all of the description, and then of the reach: what is admitted, as a value that has the facts of its law.
    pub fn admitted(&mut self, d: Description, reach: u16) -> Result<AdmittedCrc, Fault>
        ensures answer { admitted result ≡ (asked (over F.form (E.carries_of self.old.engine))).admission d reach }
        ensures description { IfOk result (λ a. a.description ≡ d) }
        ensures reach { IfOk result (λ a. a.reach ≡ reach) }
        ensures carries { E.carries_of self.new.engine ≡ E.carries_of self.old.engine }
    {
        let generator = self.fit(d)?;
        reaches(generator, reach)?;
        Ok(AdmittedCrc {
            description: d,
            reach,
        })
    }
}

impl<E: Engine, F: Form> Kind for OverEngine<E, F> {
    ghost model = { λ k. over F.form (E.Engine.carries_of k.engine) };

    ghost keeps = { λ k. F.keeps (E.Engine.carries_of k.engine) };

    fn serves(&self, kind: u8) -> bool {
        F::serves(kind)
    }

    fn admit(&mut self, d: Description, reach: u16) -> Result<(), Fault> {
        self.admitted(d, reach)?;
        Ok(())
    }

    fn sheet(&mut self, d: Description) -> Result<Sheet, Fault> {
        let generator = self.fit(d)?;
        Ok(F::sheet(generator))
    }

    fn check(&mut self, d: Description, message: &[u8], out: &mut [u8]) -> Result<usize, Fault> {
        let generator = self.fit(d)?;
        let sheet = F::sheet(generator);
        fitting(message, sheet.tuple, sheet.check, out.len())?;
        self.engine.feed_all(message);
        let count = usize::from(sheet.check);
        put(
            out,
            0,
            count,
            F::number(generator, self.engine.value(), message),
        );
        Ok(count)
    }
}
