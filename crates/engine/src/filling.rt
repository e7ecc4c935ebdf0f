// Filling a table of 256 remainders by sums.
ghost use Rattle.std.specs.Prelude.{◌≡◌, ℕ, ◌+◌, ◌-◌, ◌*◌, ◌^◌, ◌<◌, ◌≤◌, length, bit_xor, slice_index};
ghost use Rattle.poly.specs.Poly.{rem, clmul};
ghost use Rattle.engine.specs.Tables.{Entries};

use poly::generator::Generator;
use poly::long_division::twice_at_top;

// The first 2^rounds entries, entry a the remainder of a × first, with everything moved `up` places, the generator too: the upper
// half of each power of two from the lower by a sum. Answers what would come at 2^rounds, not moved. On the way it stands at the
// top of 32 bits.
// By index: a zip over `iter_mut` was tried, and `loop-k-preserved` did not close: nothing is known there of the entries written.
fn double(entries: &mut [u32], generator: Generator, first: u32, rounds: u8, up: u8) -> u32
    requires { (rounds ≤ 8) × ((2 ^ rounds ≤ length entries.old) × ((generator.degree + up ≤ 32) × (first < 2 ^ generator.degree))) }
    ensures next { result ≡ rem generator.degree generator.low (first * 2 ^ rounds) }
    ensures entries { (a : ℕ) → a < 2 ^ rounds → slice_index entries.new a ≡ rem (generator.degree + up) (generator.low * 2 ^ up) (clmul a (first * 2 ^ up)) }
{
    entries[0] = 0;
    let top = 32 - generator.degree();
    let mut power = first << top;
    for k in 0..rounds {
        let half = 1usize << k;
        let head = power >> (top - up);
        for i in 0..half {
            entries[half + i] = head ^ entries[i];
        }
        power = twice_at_top(generator.low() << top, power);
    }
    power >> top
}

// The other seven rows of 32 entries: each is the first row plus the row's head.
// By index: `array::from_fn` over the heads and a copy of the first row proves, but a table set takes 3.8 times as long.
fn spread(entries: &mut [u32; 256], heads: &[u32; 8])
    ensures first { (c : ℕ) → c < 32 → slice_index entries.new c ≡ slice_index entries.old c }
    ensures rows { (c r : ℕ) → c < 32 → 1 ≤ r → r < 8 → slice_index entries.new (32 * r + c) ≡ bit_xor (slice_index heads.now r) (slice_index entries.old c) }
{
    for i in 0..32usize {
        for j in 1..8usize {
            entries[32 * j + i] = heads[j] ^ entries[i];
        }
    }
}

// Where the entry at 1 is to be `first`, the remainder of some X^k, moved up: a row of 32 entries, the heads of the rows, and the
// sums. Answers the remainder of first × X^8.
fn fill(entries: &mut [u32; 256], generator: Generator, first: u32, up: u8) -> u32
    requires { (generator.degree + up ≤ 32) × (first < 2 ^ generator.degree) }
    ensures next { result ≡ rem generator.degree generator.low (first * 2 ^ 8) }
    ensures entries { (k : ℕ) → first ≡ rem generator.degree generator.low (2 ^ k) → Entries (generator.degree + up) (generator.low * 2 ^ up) (k + up) entries.new }
{
    let mut heads = [0; 8];
    let next = double(entries, generator, first, 5, up);
    let last = double(&mut heads, generator, next, 3, up);
    spread(entries, &heads);
    last
}

// The table of a generator: entry a is the remainder of a × X^degree.
pub(crate) fn tabulate(entries: &mut [u32; 256], generator: Generator)
    ensures { Entries generator.degree generator.low generator.degree entries.new }
{
    let _ = fill(entries, generator, generator.low(), 0);
}

// A table at the top of 32 bits: that of X^(32 - degree) times the generator. Where `first` is the remainder of X^k, entry a is the
// remainder of a × X^k, moved to the top. Answers the remainder of first × X^8.
pub fn tabulate_at_top(entries: &mut [u32; 256], generator: Generator, first: u32) -> u32
    ensures next { result ≡ rem generator.degree generator.low (first * 2 ^ 8) }
    ensures entries { (k : ℕ) → first ≡ rem generator.degree generator.low (2 ^ k) → Entries 32 (generator.low * 2 ^ (32 - generator.degree)) (k + (32 - generator.degree)) entries.new }
{
    let first = generator.remainder(first, 0);
    fill(entries, generator, first, 32 - generator.degree())
}
