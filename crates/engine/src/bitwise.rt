// The bitwise engine: carries every generator, and multiplies by X eight times for each byte.
use crate::register::Register;

#[repr(C)]
#[derive(Clone, Copy, PartialEq, Eq, Debug)]
pub struct Bitwise {
    pub(crate) register: Register,
}
