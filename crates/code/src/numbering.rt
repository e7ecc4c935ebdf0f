// The numbers by which kinds refuse, as the contract of a function.
ghost use Rattle.std.specs.Prelude.{◌≡◌};
ghost use Rattle.code.specs.Numbered.{CrcNumbered, ParityNumbered, WeightedNumbered, JoinedNumbered};

// Kinds 1 to 3, over every engine, refuse by their own numbers alone, and so does every bank of kinds that do.
pub fn kinds_are_numbered() -> u8
    ensures answer { result ≡ 0 }
    ensures crc { CrcNumbered }
    ensures parity { ParityNumbered }
    ensures weighted { WeightedNumbered }
    ensures bank { JoinedNumbered }
{
    // A number: of () every body is right, and so no wrong one could be told from this.
    0
}
