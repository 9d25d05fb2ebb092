// Where two texts begin to differ.
ghost use Rattle.std.specs.Prelude.{◌≡◌};
ghost use Rattle.text.specs.Differ.{first_difference};

// A place past the end of one text differs if the other goes on there.
pub fn first_difference(a: &[u8], b: &[u8]) -> Option<usize>
    ensures { result ≡ first_difference a.now b.now }
{
    let inside = a.iter().zip(b).position(|(x, y)| x != y);
    let ends = (a.len() != b.len()).then_some(a.len().min(b.len()));
    inside.or(ends)
}
