// Where two replays of one capture begin to differ.
ghost use Rattle.std.specs.Prelude.{◌≡◌, is_none};
ghost use Rattle.text.specs.Differ.{first_difference};
ghost use Rattle.image.specs.Image.{image_of};
ghost use Rattle.capture.specs.Replay.{replayed};
ghost use Rattle.comparison.specs.Agreement.{same_end, disagreement_of};

use states::{Machine, Refused};

fn same_image(m: Machine, n: Machine) -> bool
    ensures { result ≡ is_none (first_difference (image_of m) (image_of n)) }
{
    image::image_of(m) == image::image_of(n)
}

fn same_end(p: Result<Machine, Refused>, g: Result<Machine, Refused>) -> bool
    ensures { result ≡ same_end (replayed p) (replayed g) }
{
    match (p, g) {
        (Ok(m), Ok(n)) => same_image(m, n),
        (Err(r), Err(q)) => r.why == q.why && same_image(r.machine, q.machine),
        _ => false,
    }
}

// The first record whose answers differ; where only the refusals or the machines at the end do, the place past the last record.
pub fn disagreement(
    p: Result<Machine, Refused>,
    g: Result<Machine, Refused>,
    plain: &[u8],
    gates: &[u8],
) -> Option<usize>
    ensures { result ≡ disagreement_of (replayed p) (replayed g) plain.now gates.now }
{
    match text::first_difference(plain, gates) {
        Some(k) => Some(k / 5),
        None => (!same_end(p, g)).then_some(plain.len() / 5),
    }
}
