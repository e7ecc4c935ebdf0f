// The slicing engine: carries every generator, and looks sixteen bytes up at a time.
ghost use Rattle.std.specs.Prelude.{◌-◌, ◌*◌, ◌^◌};
ghost use Rattle.slicing.specs.Tables.{Tables};

use engine::register::Register;

// The tables stand at the top of 32 bits: they are those of X^(32 - degree) times the generator.
#[repr(C)]
#[derive(Clone, Copy, PartialEq, Eq, Debug)]
pub struct Slicing {
    pub(crate) register: Register,
    pub(crate) tables: [[u32; 256]; 16],
    ghost table: { Tables (register.generator.low * 2 ^ (32 - register.generator.degree)) 16 tables },
}
