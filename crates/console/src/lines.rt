// The lines of an input, one by one.
ghost use Rattle.std.specs.Prelude.{◌≡◌, ◌<◌, ◌∷◌, length};
ghost use Rattle.std.specs.Iterator.{YieldsFirstRef, item_count};
ghost use Rattle.console.specs.Lines.{lines_of};

// What ends a line.
const BREAK: u8 = 0x0A;

// The lines of what is left of an input. (A `for` over the library's `split_inclusive` has no proof in a generic function: antt refuses its type.)
#[derive(Drop)]
pub(crate) struct Lines<'a>(pub(crate) &'a [u8]);

impl<'a> Iterator for Lines<'a> {
    type Item = &'a [u8];

    ghost next_gives = { YieldsFirstRef (λ s. lines_of s.0.now) };

    ghost remaining = { item_count (λ s. lines_of s.0.now) };

    fn next(&mut self) -> Option<&'a [u8]> {
        if self.0.is_empty() {
            return None;
        }
        let (line, rest) = cut(self.0);
        self.0 = rest;
        Some(line)
    }
}

// The first line, and the input after it and its 0A.
fn cut(input: &[u8]) -> (&[u8], &[u8])
    requires { 0 < length input.now }
    ensures { lines_of input.now ≡ result.0.now ∷ lines_of result.1.now }
{
    match input.iter().position(|b| *b == BREAK) {
        Some(i) => (&input[..i], &input[i + 1..]),
        None => (input, &[]),
    }
}
