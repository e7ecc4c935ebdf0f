// The numbers by which the kind refuses, as the contract of a function.
ghost use Rattle.std.specs.Prelude.{◌≡◌};
ghost use Rattle.code.specs.Model.{Numbered};
ghost use Rattle.example_kind.specs.Model.{longitudinal};

// The kind refuses by the numbers of kinds alone.
pub fn longitudinal_is_numbered() -> u8
    ensures answer { result ≡ 0 }
    ensures numbers { Numbered longitudinal }
{
    // A number: of () every body is right, and so no wrong one could be told from this.
    0
}
