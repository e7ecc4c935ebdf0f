// A station that is spoken to by lines.
ghost use Rattle.std.specs.Prelude.{◌≡◌, ◌+◌, ◌≤◌, true, [], ◌++◌, is_ok, vec_len, vec_capacity};
ghost use Rattle.answer.specs.Refusal.{if_ok};
ghost use Rattle.code.specs.Model.{asked};
ghost use Rattle.station.specs.Book.{empty_book};
ghost use Rattle.station.specs.Items.{items};
ghost use Rattle.console.specs.Deeds.{deed_of};
ghost use Rattle.console.specs.Transcript.{printed_of, book_after_line};

use crate::answers::put_answer;
use crate::decode::{LONGEST, decode};
use crate::line::{Line, line_of};
use crate::orders::call;
use crate::print::LINE;
use code::kind::Kind;
use station::station::Station;
use std::alloc::AllocError;

// A station, and room for the bytes of a line and for a frame: fixed, since a line needs no memory where the output has room.
#[derive(Drop)]
pub struct Console<K: Kind> {
    station: Station<K>,
    input: [u8; LONGEST],
    output: [u8; LONGEST],
}

impl<K: Kind> Console<K> {
    pub fn new(bank: K) -> Console<K>
        ensures book { items result.station.book ≡ empty_book }
        ensures bank { result.station.bank ≡ bank }
    {
        Console {
            station: Station::new(bank),
            input: [0; LONGEST],
            output: [0; LONGEST],
        }
    }

    // Obeys line `number`, and puts its printed line at the end of an output that has room for it.
    fn print_line(&mut self, number: u64, line: &[u8], out: &mut Vec<u8>)
        requires { vec_len out.old + LINE ≤ vec_capacity out.old }
        ensures printed { out.new.items ≡ out.old.items ++ printed_of (asked (K.model self.old.station.bank)) number (items self.old.station.book) (deed_of line.now) }
        ensures book { items self.new.station.book ≡ book_after_line (asked (K.model self.old.station.bank)) (items self.old.station.book) (deed_of line.now) }
        ensures bank { K.model self.new.station.bank ≡ K.model self.old.station.bank }
    {
        match line_of(line) {
            Ok(Line::Command(command, digits)) => {
                let bytes = decode(digits, &mut self.input);
                let answer = call(&mut self.station, command, bytes, &mut self.output);
                put_answer(out, number, answer);
            }
            Ok(Line::Remark | Line::Empty) => {}
            Err(fault) => put_answer(out, number, Err(fault)),
        }
    }

    // Obeys line `number`: makes its call, and appends its printed line to the output. Nothing is printed of a remark or an empty line.
    // Room for the printed line, 8,300 bytes, is made first: without memory for it nothing is done. Where the output has that room already, no memory is needed.
    pub fn obey(&mut self, number: u64, line: &[u8], out: &mut Vec<u8>) -> Result<(), AllocError>
        ensures printed { out.new.items ≡ out.old.items ++ if_ok result (printed_of (asked (K.model self.old.station.bank)) number (items self.old.station.book) (deed_of line.now)) [] }
        ensures book { items self.new.station.book ≡ if_ok result (book_after_line (asked (K.model self.old.station.bank)) (items self.old.station.book) (deed_of line.now)) (items self.old.station.book) }
        ensures bank { K.model self.new.station.bank ≡ K.model self.old.station.bank }
        ensures needs { vec_len out.old + 8300 ≤ vec_capacity out.old → is_ok result ≡ true }
    {
        out.reserve(LINE)?;
        self.print_line(number, line, out);
        Ok(())
    }
}
