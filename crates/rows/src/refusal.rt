// Refusals as the tables have them: the numbers are what is tested, so they stand here and in `number_of` as numbers, not by the names of faults.
use answer::fault::{Fault, Layer};

// Number, layer, place.
pub(crate) type Refusal = (u8, Layer, usize);

pub(crate) fn refusal_of<T: Drop>(answer: Result<T, Fault>) -> Option<Refusal> {
    let fault = answer.err()?;
    Some((fault.number(), fault.layer(), fault.place()))
}
