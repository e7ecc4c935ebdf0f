// The first place where two strings differ.
ghost use Rattle.std.specs.Prelude.{◌≡◌, ◌≤◌, length, IfSome};
ghost use Rattle.station.specs.Frame.{differ};

pub(crate) fn first_difference(a: &[u8], b: &[u8]) -> Option<usize>
    ensures is { result ≡ differ a.now b.now }
    ensures within { IfSome result (λ i. i ≤ length a.now) }
{
    a.iter()
        .zip(b)
        .position(|(x, y)| x != y)
        .or((a.len() != b.len()).then_some(a.len().min(b.len())))
}
