// Kind 2, the CRC with parity, over any engine: the check is the remainder, and one bit that makes the ones of the word even in number.
ghost use Rattle.code.proofs.ParityLaws.{parity_keeps};
ghost use Rattle.crc.specs.Form.{parity_form};

use crate::form::Form;
use crate::over_engine::{OverEngine, check_bytes};
use answer::fault::Fault;
use code::bytes::sum;
use code::description::Sheet;
use poly::generator::Generator;

const KIND: u8 = 2;

pub type CrcParity<E> = OverEngine<E, WithParity>;

// The check with a bit of parity.
#[derive(Clone, Copy, PartialEq, Eq, Debug)]
pub struct WithParity;

impl Form for WithParity {
    ghost form = { parity_form };

    ghost keeps = { parity_keeps };

    fn serves(kind: u8) -> bool {
        kind == KIND
    }

    fn takes(degree: u8) -> bool {
        matches!(degree, 15 | 23 | 31)
    }

    fn terms(generator: Generator) -> Result<(), Fault> {
        if generator.terms() % 2 == 0 {
            return Err(Fault::Terms(4));
        }
        Ok(())
    }

    fn sheet(generator: Generator) -> Sheet {
        Sheet {
            check: check_bytes(generator.degree()),
            tuple: 1,
            burst: u16::from(generator.degree()) + 1,
            few: 3,
            odd: true,
        }
    }

    // The remainder, and then a bit by the ones of the message and of the remainder. The sum of the bytes has as many ones, modulo 2, as they.
    fn number(_: Generator, r: u32, message: &[u8]) -> u32 {
        let ones = sum(message).count_ones() + r.count_ones();
        r * 2 + ones % 2
    }
}
