// The printed line of an answer, put at the end of an output that has room for it.
ghost use Rattle.std.specs.Prelude.{◌≡◌, ◌+◌, ◌≤◌, ◌++◌, length, IfOk, IfSome, vec_len, vec_capacity};
ghost use Rattle.console.specs.Printed.{printed_lent};

use crate::decode::LONGEST;
use crate::print::{LINE, put, put_decimal, put_hex};
use answer::fault::Fault;

// Success, with the bytes of a frame or a message if there are any to show, or a refusal. That there is room is asked here and where the
// line is obeyed: a type of outputs with so much room would be one no longer after the first byte, and is no plainer.
pub(crate) fn put_answer(out: &mut Vec<u8>, number: u64, answer: Result<Option<&[u8]>, Fault>)
    requires room { vec_len out.old + LINE ≤ vec_capacity out.old }
    requires sized { IfOk answer (λ shown. IfSome shown (λ bytes. length bytes.now ≤ LONGEST)) }
    ensures { out.new.items ≡ out.old.items ++ printed_lent number answer.entry }
{
    put_decimal(out, number);
    match answer {
        Ok(None) => put(out, b" 0\n"),
        Ok(Some(bytes)) => {
            put(out, b" 0 ");
            put_hex(out, bytes);
            put(out, b"\n");
        }
        Err(fault) => {
            put(out, b" ");
            put_decimal(out, u64::from(fault.number()));
            put(out, b" ");
            put_decimal(out, fault.place() as u64);
            put(out, b"\n");
        }
    }
}
