// The parts of a frame, written from the start of an output on.
ghost use Rattle.std.specs.Prelude.{◌≡◌, ◌+◌, ◌≤◌, ◌++◌, length, drop};

// Head, message and check, one after the other from the start on. Answers where they end.
pub(crate) fn write_parts(out: &mut [u8], head: &[u8], message: &[u8], check: &[u8]) -> usize
    requires { length head.now + length message.now + length check.now ≤ length out.old }
    ensures end { result ≡ length head.now + length message.now + length check.now }
    ensures out { out.new ≡ (head.now ++ (message.now ++ check.now)) ++ drop result out.old }
{
    let start = head.len();
    let end = start + message.len();
    let whole = end + check.len();
    out[0..start].copy_from_slice(head);
    out[start..end].copy_from_slice(message);
    out[end..whole].copy_from_slice(check);
    whole
}
