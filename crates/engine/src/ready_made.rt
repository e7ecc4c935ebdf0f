// The ready-made engine: carries X^32 + 04C11DB7 alone, by 256 fixed numbers.
ghost use Rattle.std.specs.Prelude.{◌^◌, ◌<◌};

#[repr(C)]
#[derive(Clone, Copy, PartialEq, Eq, Debug)]
pub struct ReadyMade {
    pub(crate) register: u32,
    // said, though a u32 is below it: the trait's law `sound` is owed at every number that can stand here in a proof
    ghost ok: { register < 2 ^ 32 },
}
