// A head's bytes, collected out of the answers to a capture.
ghost use Rattle.std.specs.Prelude.{[], ◌∷◌, ◌≡◌};
ghost use Rattle.text.specs.Page.{Put};
ghost use Rattle.heads.specs.Shown.{shown_at, without_zeros, head_text};

use routing::Output;
use text::Page;

fn shown_at(answers: &[u8], k: usize, head: Output) -> u8
    ensures { result ≡ shown_at answers.now head.0 k }
{
    let record = places::record_at(answers, k);
    image::byte_at(&record, usize::from(head.0) + 1)
}

fn put_unless_zero(page: &mut Page, b: u8)
    ensures { Put page.old (without_zeros (b ∷ [])) page.new }
{
    if b != 0 {
        page.put_byte(b);
    }
}

// A page that is full takes no more.
pub fn put_shown(page: &mut Page, answers: &[u8], head: Output)
    ensures { Put page.old (head_text answers.now head.0) page.new }
{
    for k in 0..answers.len() / 5 {
        put_unless_zero(page, shown_at(answers, k, head));
    }
}
