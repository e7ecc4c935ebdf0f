// What a description of kind 3 describes.
ghost use Rattle.std.specs.Prelude.{◌≡◌, ◌*◌, ◌≤◌, true};
ghost use Rattle.code.specs.WeightedModel.{weighted_degree};

use poly::generator::Generator;

// Two generators, and tuples of 1, 2 or 4 bytes, which hold a remainder by either.
#[derive(Clone, Copy, PartialEq, Eq, Debug)]
pub struct Weighted {
    pub(crate) first: Generator,
    pub(crate) second: Generator,
    pub(crate) tuple: u8,
    ghost size: { weighted_degree first.degree ≡ true },
    ghost bits: { first.degree ≡ 8 * tuple },
    ghost below: { second.degree ≤ first.degree },
}
