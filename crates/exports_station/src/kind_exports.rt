// Kinds 1 to 3 over the table engine, for C.
ghost use Rattle.std.specs.Prelude.{◌≡◌, length};
ghost use Rattle.code.specs.Model.{length_of, written};
ghost use Rattle.exports_station.specs.Forms.{kinds_asked, told, done};

use crate::checking::check;
use crate::form::CallAnswer;
use code::description::Description;
use code::kind::Kind;
use engine::table::Table;
use kinds::three::three_kinds;

// Whether words of up to reach bytes are admitted under a code.
#[unsafe(no_mangle)]
pub extern "C" fn pukhtamo_admit(code: &Description, reach: u16) -> CallAnswer
    ensures { result ≡ told (done (kinds_asked.admission code.now reach)) }
{
    three_kinds::<Table>().admit(*code, reach).into()
}

// Writes the check of a message at the start of the output, once and `more` times more.
#[unsafe(no_mangle)]
pub extern "C" fn pukhtamo_check(
    code: &Description,
    message: &[u8],
    out: &mut [u8],
    more: u32,
) -> CallAnswer
    ensures answer { result ≡ told (length_of (kinds_asked.check code.now message.now (length out.old))) }
    ensures written { out.new ≡ written (kinds_asked.check code.now message.now (length out.old)) out.old }
{
    let mut bank = three_kinds::<Table>();
    check(&mut bank, *code, message, out, more).into()
}
