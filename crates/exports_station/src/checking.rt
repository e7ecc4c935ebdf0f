// The check of a message, over any bank. Made `more` times more it gives the same answer every time. Its loop stands here for the reason in stationing.rt.
ghost use Rattle.std.specs.Prelude.{◌≡◌, ℕ, length};
ghost use Rattle.answer.specs.Refusal.{read};
ghost use Rattle.code.specs.Model.{asked, length_of, written};

use answer::fault::Fault;
use code::description::Description;
use code::kind::Kind;

pub(crate) fn check<K: Kind>(
    bank: &mut K,
    d: Description,
    message: &[u8],
    out: &mut [u8],
    more: u32,
) -> Result<usize, Fault>
    ensures answer { read result ≡ length_of ((asked (K.model bank.old)).check d message.now (length out.old)) }
    ensures written { out.new ≡ written ((asked (K.model bank.old)).check d message.now (length out.old)) out.old }
{
    let mut answer = bank.check(d, message, out);
    for _ in 0..more {
        answer = bank.check(d, message, out);
    }
    answer
}
