// A description in ten bytes, as the head of a frame and the lines of a console have it: there and back.
ghost use Rattle.std.specs.Prelude.{◌≡◌};
ghost use Rattle.code.specs.Coded.{IsReadFrom, coded};

use crate::description::Description;

impl From<Description> for [u8; 10] {
    ghost from_gives = { λ d ten. ten ≡ coded d };

    fn from(d: Description) -> [u8; 10] {
        let [l0, l1, l2, l3] = d.low.to_be_bytes();
        let [m0, m1] = d.low2.to_be_bytes();
        [d.kind, d.degree, l0, l1, l2, l3, d.degree2, m0, m1, d.tuple]
    }
}

impl From<[u8; 10]> for Description {
    ghost from_gives = { IsReadFrom };

    fn from(ten: [u8; 10]) -> Description {
        let [kind, degree, l0, l1, l2, l3, degree2, m0, m1, tuple] = ten;
        Description {
            kind,
            degree,
            low: u32::from_be_bytes([l0, l1, l2, l3]),
            degree2,
            low2: u16::from_be_bytes([m0, m1]),
            tuple,
        }
    }
}
