// What a kind over an engine admits: a description and a reach, with the facts that its law uses. A generator instead of the first two
// facts would hold the same numbers once more beside the description.
ghost use Rattle.std.specs.Prelude.{◌≡◌, ◌*◌, ◌%◌, ◌^◌, ◌<◌, ◌≤◌};
ghost use Rattle.poly.specs.Period.{NoReturn};

use code::description::Description;

#[derive(Clone, Copy, PartialEq, Eq, Debug)]
pub struct AdmittedCrc {
    pub(crate) description: Description,
    pub(crate) reach: u16,
    ghost small: { description.low < 2 ^ description.degree },
    ghost constant: { description.low % 2 ≡ 1 },
    ghost far: { NoReturn description.degree description.low (8 * reach) },
}

impl AdmittedCrc {
    // What was admitted ..
    pub fn description(&self) -> Description
        ensures { result ≡ self.now.description }
    {
        self.description
    }

    // .. and for words of up to how many bytes.
    pub fn reach(&self) -> u16
        ensures { result ≡ self.now.reach }
    {
        self.reach
    }
}
