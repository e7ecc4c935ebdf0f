// Two kinds as one: the left one serves its own numbers, the right one all others.
ghost use Rattle.std.specs.Prelude.{◌≡◌};
ghost use Rattle.code.specs.Bank.{joined};
ghost use Rattle.code.specs.Joined.{joined_keeps};

use crate::description::{Description, Sheet};
use crate::kind::Kind;
use answer::fault::Fault;

#[derive(Debug, Drop)]
pub struct Bank<L, R> {
    left: L,
    right: R,
}

impl<L, R> Bank<L, R> {
    // The bank of two kinds, or of banks.
    pub fn new(left: L, right: R) -> Bank<L, R>
        ensures left { result.left ≡ left }
        ensures right { result.right ≡ right }
    {
        Bank { left, right }
    }

    // The two kinds again, also those that may not be let go.
    pub fn into_parts(self) -> (L, R)
        ensures left { result.0 ≡ self.left }
        ensures right { result.1 ≡ self.right }
    {
        let Bank { left, right } = self;
        (left, right)
    }
}

// Each call asks the part whose number it is. The parts differ in type, so that a function which picks one is no plainer than the test.
impl<L: Kind, R: Kind> Kind for Bank<L, R> {
    ghost model = { λ b. joined (L.Kind.model b.left) (R.Kind.model b.right) };

    ghost keeps = { λ k. joined_keeps (L.Kind.keeps k.left) (R.Kind.keeps k.right) };

    fn serves(&self, kind: u8) -> bool {
        self.left.serves(kind) || self.right.serves(kind)
    }

    fn admit(&mut self, d: Description, reach: u16) -> Result<(), Fault> {
        if self.left.serves(d.kind) {
            self.left.admit(d, reach)
        } else {
            self.right.admit(d, reach)
        }
    }

    fn sheet(&mut self, d: Description) -> Result<Sheet, Fault> {
        if self.left.serves(d.kind) {
            self.left.sheet(d)
        } else {
            self.right.sheet(d)
        }
    }

    fn check(&mut self, d: Description, message: &[u8], out: &mut [u8]) -> Result<usize, Fault> {
        if self.left.serves(d.kind) {
            self.left.check(d, message, out)
        } else {
            self.right.check(d, message, out)
        }
    }
}
