// How a description is printed.
ghost use Rattle.std.specs.Prelude.{Some};
ghost use Rattle.code.specs.Shown.{spelled};

use crate::description::Description;
use std::fmt;

// Field by field, in hexadecimal.
impl fmt::Display for Description {
    ghost output = { λ d. Some (spelled d) };

    fn fmt<W: fmt::Write>(&self, f: &mut fmt::Formatter<W>) -> fmt::Result {
        let kind = self.kind;
        let degree = self.degree;
        let low = self.low;
        let degree2 = self.degree2;
        let low2 = self.low2;
        let tuple = self.tuple;
        write!(
            f,
            "{kind:02X} {degree:02X} {low:08X} {degree2:02X} {low2:04X} {tuple:02X}"
        )
    }
}
