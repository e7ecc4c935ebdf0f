// Small sums by hand, as the contract of a function.
ghost use Rattle.std.specs.Prelude.{◌≡◌};
ghost use Rattle.code.specs.Samples.{SamplesRight};

// The checks of some messages, and a word that is none though both its sums vanish.
pub fn samples_right() -> u8
    ensures answer { result ≡ 0 }
    ensures samples { SamplesRight }
{
    // A number: of () every body is right, and so no wrong one could be told from this.
    0
}
