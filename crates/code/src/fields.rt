// What kinds ask of low parts, periods and reaches, and of a message and the room for its check.
ghost use Rattle.std.specs.Prelude.{◌≡◌, ◌^◌, ◌&&◌, [], ◌∷◌, length, nat_le, nat_lt};
ghost use Rattle.answer.specs.declared.fault.Layer.TheVariants.{Kind, Frame};
ghost use Rattle.answer.specs.Refusal.{read, refusal};
ghost use Rattle.answer.specs.Rules.{rule, by_rules};
ghost use Rattle.code.specs.Answered.{Answers};
ghost use Rattle.code.specs.CrcModel.{one_generator};
ghost use Rattle.code.specs.Fields.{at_least, proper_low, lawful_reach};
ghost use Rattle.code.specs.Model.{whole};

use crate::description::Description;
use answer::fault::Fault;
use poly::generator::Generator;

// Whether a period is at least so long: one that was not found is.
pub fn at_least(period: Option<u16>, need: u16) -> bool
    ensures { result ≡ at_least period need }
{
    period.is_none_or(|found| need <= found)
}

// Whether a number has no bit from the degree on.
pub(crate) fn short(degree: u8, low: u32) -> bool
    ensures { result ≡ nat_lt low (2 ^ degree) }
{
    degree >= 32 || low >> degree == 0
}

// Whether a low part is fit for its degree.
pub fn proper_low(degree: u8, low: u32) -> bool
    ensures { result ≡ proper_low degree low }
{
    short(degree, low) && low % 2 == 1
}

// The generator X^degree + low of a description; a low part that stands at a place is refused with 13 there where it is not fit.
pub fn generator_at(degree: u8, low: u32, place: usize) -> Result<Generator, Fault>
    ensures { Answers result (rule (nat_le 2 degree && nat_le degree 32 && proper_low degree low) (refusal 13 Kind place) ∷ []) (λ g. (g.degree ≡ degree) × (g.low ≡ low)) }
{
    Generator::new(degree, low).map_err(|_| Fault::KindLow(place))
}

// The fields that a code with one generator leaves unused, and a tuple of one byte.
pub fn one_generator(d: Description) -> Result<(), Fault>
    ensures { read result ≡ by_rules (one_generator d) tt }
{
    if d.degree2 != 0 {
        return Err(Fault::KindField(8));
    }
    if d.low2 != 0 {
        return Err(Fault::KindField(9));
    }
    if d.tuple != 1 {
        return Err(Fault::KindField(11));
    }
    Ok(())
}

// Whether a tuple has some bytes, and a reach is whole tuples, has room for the check and one tuple, and is at most 4,096.
pub fn lawful_reach(tuple: u16, check: u16, reach: u16) -> bool
    ensures { result ≡ (nat_le 1 tuple && lawful_reach tuple check reach) }
{
    tuple != 0
        && reach % tuple == 0
        && u32::from(check) + u32::from(tuple) <= u32::from(reach)
        && reach <= 4096
}

// Refuses a message that is empty, no whole tuples or over 4,096 bytes with 31, and then too little room for the check with 33.
pub fn fitting(message: &[u8], tuple: u16, check: u16, room: usize) -> Result<(), Fault>
    ensures { read result ≡ by_rules (rule (whole tuple message.now) (refusal 31 Frame (length message.now)) ∷ rule (nat_le check room) (refusal 33 Frame room) ∷ []) tt }
{
    let length = message.len();
    if tuple == 0 || length == 0 || length > 4096 || length as u16 % tuple != 0 {
        return Err(Fault::Message(length));
    }
    if room < usize::from(check) {
        return Err(Fault::Output(room));
    }
    Ok(())
}
