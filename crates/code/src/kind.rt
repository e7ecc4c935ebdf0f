// What every kind of code does. Its meaning is a model; asking alters none of it.
ghost use Rattle.std.specs.Prelude.{◌≡◌, ℕ, length};
ghost use Rattle.answer.specs.Refusal.{read};
ghost use Rattle.code.specs.Model.{Model, Keeps, asked, length_of, written};

use crate::description::{Description, Sheet};
use answer::fault::Fault;

pub trait Kind {
    ghost model: { Self → Model };

    // Whether the kind number is served.
    fn serves(&self, kind: u8) -> bool
        ensures { result ≡ (asked (model self.now)).serves kind };

    // Whether words of up to reach bytes are admitted under the description.
    fn admit(&mut self, d: Description, reach: u16) -> Result<(), Fault>
        ensures answer { read result ≡ (asked (model self.old)).admission d reach }
        ensures same { model self.new ≡ model self.old };

    // What the code promises.
    fn sheet(&mut self, d: Description) -> Result<Sheet, Fault>
        ensures answer { read result ≡ (asked (model self.old)).sheet d }
        ensures same { model self.new ≡ model self.old };

    // Writes the check of a message at the start of the output, and answers its length.
    fn check(&mut self, d: Description, message: &[u8], out: &mut [u8]) -> Result<usize, Fault>
        ensures answer { read result ≡ length_of ((asked (model self.old)).check d message.now (length out.old)) }
        ensures written { out.new ≡ written ((asked (model self.old)).check d message.now (length out.old)) out.old }
        ensures same { model self.new ≡ model self.old };

    // the two laws
    ghost keeps: { (k : Self) → Keeps (model k) };
}
