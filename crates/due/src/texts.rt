// Texts that stand one behind the other, each a length byte and its bytes.
ghost use Rattle.std.specs.Prelude.{◌≡◌};
ghost use Rattle.due.specs.Texts.{first_text, behind_text, behind, cut, text_due, capture_in, ends_inside};

use routing::Output;

fn first_text(input: &[u8]) -> &[u8]
    ensures { result.now ≡ first_text input.now }
{
    text::part(input, 1, usize::from(image::byte_at(input, 0)))
}

fn behind_text(input: &[u8]) -> &[u8]
    ensures { result.now ≡ behind_text input.now }
{
    let length = usize::from(image::byte_at(input, 0));
    text::part(input, length + 1, input.len())
}

// What stands behind the first h texts.
fn behind(input: &[u8], h: u8) -> &[u8]
    ensures { result.now ≡ behind input.now h }
{
    let mut rest = input;
    for _ in 0..h {
        rest = behind_text(rest);
    }
    rest
}

pub fn text_due(input: &[u8], head: Output) -> &[u8]
    ensures { result.now ≡ text_due input.now head.0 }
{
    first_text(behind(input, head.0))
}

pub fn capture_in(input: &[u8]) -> &[u8]
    ensures { result.now ≡ capture_in input.now }
{
    behind(input, 4)
}

fn is_cut(input: &[u8], h: u8) -> bool
    ensures { result ≡ cut input.now h }
{
    let rest = behind(input, h);
    rest.len() <= usize::from(image::byte_at(rest, 0))
}

// Refusal 25: a length byte or a byte of a text is missing.
pub fn ends_inside(input: &[u8]) -> bool
    ensures { result ≡ ends_inside input.now }
{
    (0..4).any(|h| is_cut(input, h))
}
