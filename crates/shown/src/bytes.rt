// Bytes in hexadecimal.
ghost use Rattle.std.specs.Prelude.{Some, flat_map};
ghost use Rattle.answer.specs.Shown.{hexadecimal};

use std::fmt;

/// Two upper-case digits for each byte.
#[derive(Clone, Copy, PartialEq, Eq, Debug)]
pub struct Bytes<'a>(pub &'a [u8]);

impl fmt::Display for Bytes<'_> {
    ghost output = { λ b. Some (flat_map (hexadecimal 2) b.0.now) };

    fn fmt<W: fmt::Write>(&self, f: &mut fmt::Formatter<W>) -> fmt::Result {
        for byte in self.0 {
            write!(f, "{byte:02X}")?;
        }
        Ok(())
    }
}
