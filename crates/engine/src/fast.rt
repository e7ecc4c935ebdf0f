// The fast engine: carries low parts of a degree of at most degree - 8, and takes one product of a byte and the low part.
ghost use Rattle.std.specs.Prelude.{◌-◌, ◌^◌, ◌<◌};

use crate::register::Register;

#[repr(C)]
#[derive(Clone, Copy, PartialEq, Eq, Debug)]
pub struct Fast {
    pub(crate) register: Register,
    ghost short: { register.generator.low < 2 ^ (register.generator.degree - 7) },
}
