// A generator X^degree + low: a degree from 2 to 32, and a low part of a lower degree with a constant term.
ghost use Rattle.std.specs.Prelude.{◌≡◌, ◌%◌, ◌^◌, ◌<◌, ◌≤◌};

#[repr(C)]
#[derive(Clone, Copy, PartialEq, Eq, Debug)]
pub struct Generator {
    pub(crate) degree: u8,
    pub(crate) low: u32,
    ghost ok: { (2 ≤ degree) × (degree ≤ 32) × (low < 2 ^ degree) × (low % 2 ≡ 1) },
}
