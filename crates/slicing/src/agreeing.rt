// That the engines that carry every generator answer the same.
ghost use Rattle.std.specs.Prelude.{◌≡◌, true};
ghost use Rattle.answer.specs.Refusal.{read};
ghost use Rattle.answer.specs.Rules.{by_rules};
ghost use Rattle.engine.specs.Rules.{set_rules};
ghost use Rattle.poly.specs.Poly.{remainder};

use crate::slicing::Slicing;
use answer::fault::Fault;
use engine::bitwise::Bitwise;
use engine::engine::Engine;
use engine::remainder::remainder_by;
use engine::table::Table;

// What new engines answer to one message: slicing, bitwise and table.
#[derive(Clone, Copy, PartialEq, Eq, Debug)]
pub struct Answers {
    pub slicing: Result<u32, Fault>,
    pub bitwise: Result<u32, Fault>,
    pub table: Result<u32, Fault>,
}

// The remainder of a message modulo X^degree + low by each of the three: all answer the same, the remainder or one refusal.
pub fn agree(degree: u8, low: u32, message: &[u8]) -> Answers
    ensures slicing { read result.slicing ≡ by_rules (set_rules true degree low) (remainder degree low message.now) }
    ensures bitwise { read result.bitwise ≡ read result.slicing }
    ensures table { read result.table ≡ read result.slicing }
{
    Answers {
        slicing: remainder_by(&mut Slicing::new(), degree, low, message),
        bitwise: remainder_by(&mut Bitwise::new(), degree, low, message),
        table: remainder_by(&mut Table::new(), degree, low, message),
    }
}
