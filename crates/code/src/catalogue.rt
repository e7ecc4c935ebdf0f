// The published codes, by name.
ghost use Rattle.std.specs.Prelude.{◌≡◌};
ghost use Rattle.code.specs.Catalogue.{published_of};

use crate::description::Description;

/// CRC-16
pub const CRC_16: Description = Description {
    kind: 1,
    degree: 16,
    low: 0x8005,
    degree2: 0,
    low2: 0,
    tuple: 1,
};

/// CRC-CCITT
pub const CRC_CCITT: Description = Description {
    low: 0x1021,
    ..CRC_16
};

/// IEEE-802
pub const IEEE_802: Description = Description {
    degree: 32,
    low: 0x04C1_1DB7,
    ..CRC_16
};

/// ATM-HEC
pub const ATM_HEC: Description = Description {
    degree: 8,
    low: 0x07,
    ..CRC_16
};

/// FAST-16
pub const FAST_16: Description = Description {
    low: 0x011B,
    ..CRC_16
};

/// LONG-24
pub const LONG_24: Description = Description {
    degree: 24,
    low: 0x01_8301,
    ..CRC_16
};

/// PARITY-16
pub const PARITY_16: Description = Description {
    kind: 2,
    degree: 15,
    low: 0x0003,
    ..CRC_16
};

/// WSC-8
pub const WSC_8: Description = Description {
    kind: 3,
    degree: 8,
    low: 0x1D,
    degree2: 5,
    low2: 0x15,
    tuple: 1,
};

/// The names that `published` knows. They stand there too: it is a rule that a name is matched against literal ones.
pub const NAMES: [&str; 8] = [
    "CRC-16",
    "CRC-CCITT",
    "IEEE-802",
    "ATM-HEC",
    "FAST-16",
    "LONG-24",
    "PARITY-16",
    "WSC-8",
];

// The description that is published under a name, or none.
pub fn published(name: &str) -> Option<Description>
    ensures { result ≡ published_of name.now }
{
    match name {
        "CRC-16" => Some(CRC_16),
        "CRC-CCITT" => Some(CRC_CCITT),
        "IEEE-802" => Some(IEEE_802),
        "ATM-HEC" => Some(ATM_HEC),
        "FAST-16" => Some(FAST_16),
        "LONG-24" => Some(LONG_24),
        "PARITY-16" => Some(PARITY_16),
        "WSC-8" => Some(WSC_8),
        _ => None,
    }
}
