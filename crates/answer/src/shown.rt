// How layers and faults are printed.
ghost use Rattle.std.specs.Prelude.{Some};
ghost use Rattle.answer.specs.Shown.{name_of, shown};

use crate::fault::{Fault, Layer};
use std::error::Error;
use std::fmt;

impl fmt::Display for Layer {
    ghost output = { λ l. Some (name_of l) };

    fn fmt<W: fmt::Write>(&self, f: &mut fmt::Formatter<W>) -> fmt::Result {
        f.write_str(match self {
            Layer::Line => "line",
            Layer::Engine => "engine",
            Layer::Kind => "kind",
            Layer::Book => "book",
            Layer::Frame => "frame",
        })
    }
}

// Number, layer and place.
impl fmt::Display for Fault {
    ghost output = { λ f. Some (shown f) };

    fn fmt<W: fmt::Write>(&self, f: &mut fmt::Formatter<W>) -> fmt::Result {
        let number = self.number();
        let layer = self.layer();
        let place = self.place();
        write!(f, "{number} {layer} {place}")
    }
}

impl Error for Fault {}
