// Kind 1, the CRC, over any engine: the check is the remainder of the message.
ghost use Rattle.code.proofs.CrcLaws.{crc-keeps};
ghost use Rattle.crc.specs.Form.{crc_form};

use crate::form::Form;
use crate::over_engine::{OverEngine, check_bytes};
use answer::fault::Fault;
use code::description::Sheet;
use poly::generator::Generator;

const KIND: u8 = 1;

pub type Crc<E> = OverEngine<E, Plain>;

// The check as it comes.
#[derive(Clone, Copy, PartialEq, Eq, Debug)]
pub struct Plain;

impl Form for Plain {
    ghost form = { crc_form };

    ghost keeps = { crc-keeps };

    fn serves(kind: u8) -> bool {
        kind == KIND
    }

    fn takes(degree: u8) -> bool {
        matches!(degree, 8 | 16 | 24 | 32)
    }

    fn terms(_: Generator) -> Result<(), Fault> {
        Ok(())
    }

    fn sheet(generator: Generator) -> Sheet {
        let even = generator.terms() % 2 == 0;
        Sheet {
            check: check_bytes(generator.degree()),
            tuple: 1,
            burst: u16::from(generator.degree()),
            few: if even { 3 } else { 2 },
            odd: even,
        }
    }

    fn number(_: Generator, r: u32, _: &[u8]) -> u32 {
        r
    }
}
