// What kinds over an engine differ in, and what each asks of a description.
ghost use Rattle.std.specs.Prelude.{◌≡◌, ℕ, ◌*◌, ◌^◌, ◌<◌, ◌≤◌, Bool, true};
ghost use Rattle.answer.specs.Refusal.{read};
ghost use Rattle.answer.specs.Rules.{by_rules};
ghost use Rattle.poly.specs.Poly.{remainder};
ghost use Rattle.code.specs.Answered.{Answers};
ghost use Rattle.code.specs.Model.{Keeps};
ghost use Rattle.crc.specs.Form.{Formed, Names, asks, over};

use answer::fault::Fault;
use code::description::{Description, Sheet};
use code::fields::{generator_at, one_generator};
use poly::generator::Generator;

pub trait Form {
    ghost form: { Formed };

    // Whether the kind number is its own.
    fn serves(kind: u8) -> bool
        ensures { result ≡ form.serves kind };

    // Whether a generator may have the degree.
    fn takes(degree: u8) -> bool
        ensures answer { result ≡ form.degrees degree }
        ensures range { result ≡ true → (8 ≤ degree) × (degree ≤ 32) };

    // What is asked of the terms of a generator.
    fn terms(generator: Generator) -> Result<(), Fault>
        ensures { read result ≡ by_rules (form.terms generator.degree generator.low) tt };

    // What the code promises.
    fn sheet(generator: Generator) -> Sheet
        ensures answer { result ≡ form.sheet generator.degree generator.low }
        ensures short { result.check ≤ 4 };

    // The check as a number, from the remainder of the message.
    fn number(generator: Generator, r: u32, message: &[u8]) -> u32
        requires { (form.degrees generator.degree ≡ true) × (r ≡ remainder generator.degree generator.low message.now) }
        ensures answer { result ≡ form.number generator.degree generator.low message.now }
        ensures below { result < 2 ^ (8 * (form.sheet generator.degree generator.low).check) };

    // the two laws
    ghost keeps: { (carries : ℕ → ℕ → Bool) → Keeps (over form carries) };
}

// What is asked of a description before the engine is asked; it describes a generator.
pub(crate) fn fields<F: Form>(d: Description) -> Result<Generator, Fault>
    ensures { Answers result (asks F.form d) (λ g. (8 ≤ g.degree) × Names d g) }
{
    if !F::serves(d.kind) {
        return Err(Fault::Unserved);
    }
    if !F::takes(d.degree) {
        return Err(Fault::KindField(3));
    }
    one_generator(d)?;
    let generator = generator_at(d.degree, d.low, 4)?;
    F::terms(generator)?;
    Ok(generator)
}
