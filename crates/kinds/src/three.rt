// Kinds 1 to 3 as one bank.
ghost use Rattle.std.specs.Prelude.{◌≡◌};
ghost use Rattle.code.specs.Bank.{joined};
ghost use Rattle.code.specs.CrcModel.{crc_model};
ghost use Rattle.code.specs.ParityModel.{parity_model};
ghost use Rattle.code.specs.WeightedModel.{weighted_model};

use code::bank::Bank;
use code::kind::Kind;
use crc::crc_kind::Crc;
use crc::parity_kind::CrcParity;
use engine::engine::Engine;
use weighted::weighted_kind::WeightedSum;

/// Kinds 1 and 2 have an engine each, and kind 3 works without one.
pub type Kinds<E> = Bank<Crc<E>, Bank<CrcParity<E>, WeightedSum>>;

/// The bank of the three kinds, over new engines.
pub fn three_kinds<E: Engine>() -> Kinds<E>
    ensures model { ⟦<Kinds<E> as Kind>⟧.model result ≡ joined (crc_model (E.carries_of result.left.engine)) (joined (parity_model (E.carries_of result.right.left.engine)) weighted_model) }
    ensures first { E.register_of result.left.engine ≡ 0 }
    ensures second { E.register_of result.right.left.engine ≡ 0 }
{
    Bank::new(
        Crc::new(E::new()),
        Bank::new(CrcParity::new(E::new()), WeightedSum),
    )
}
