// The check of a message, in a buffer.
ghost use Rattle.std.specs.Prelude.{◌≡◌};
ghost use Rattle.code.specs.Model.{asked};
ghost use Rattle.station.specs.Items.{seen};

use answer::fault::Fault;
use code::description::Description;
use code::kind::Kind;

// Lends the part of the buffer that the check is written into. No check is longer than 64 bytes.
pub(crate) fn check_of<'b, K: Kind>(
    bank: &mut K,
    d: Description,
    message: &[u8],
    buffer: &'b mut [u8; 64],
) -> Result<&'b [u8], Fault>
    ensures answer { seen result ≡ (asked (K.model bank.old)).check d message.now 64 }
    ensures same { K.model bank.new ≡ K.model bank.old }
{
    let n = bank.check(d, message, buffer)?;
    Ok(&buffer[0..n])
}
