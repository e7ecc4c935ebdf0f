// The table engine: carries every generator, and looks each byte up in 256 remainders.
ghost use Rattle.engine.specs.Tables.{Entries};

use crate::register::Register;

#[repr(C)]
#[derive(Clone, Copy, PartialEq, Eq, Debug)]
pub struct Table {
    pub(crate) register: Register,
    pub(crate) entries: [u32; 256],
    ghost table: { Entries register.generator.degree register.generator.low register.generator.degree entries },
}
