// A part of some bytes.
ghost use Rattle.std.specs.Prelude.{◌≡◌, take, drop};

// n bytes from byte `at` on, or as many of them as there are.
pub fn part(bytes: &[u8], at: usize, n: usize) -> &[u8]
    ensures { result.now ≡ take n (drop at bytes.now) }
{
    let rest = &bytes[at.min(bytes.len())..];
    &rest[..n.min(rest.len())]
}
