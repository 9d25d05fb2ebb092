// A line for each head.
ghost use Rattle.std.specs.Prelude.{◌≤◌};
ghost use Rattle.text.specs.Page.{Put};
ghost use Rattle.places.specs.Capture.{records};
ghost use Rattle.readings.specs.Lines.{line_of, four_lines};

use routing::Output;
use text::Page;

// never a part of its caller, which would then need the stack for `space` where nothing is compared
#[inline(never)]
fn put_head(page: &mut Page, head: Output, input: &[u8], answers: &[u8])
    requires { records answers.now ≤ 12289 }
    ensures { Put page.old (line_of input.now answers.now head.0) page.new }
{
    // room for a byte in each cycle of the longest capture that is kept
    let mut space = [0; 12289];
    let mut shown = Page::new(&mut space);
    heads::put_shown(&mut shown, answers, head);
    numerals::put_line(page, head.0, due::text_due(input, head), shown.text());
}

pub(crate) fn put_lines(page: &mut Page, input: &[u8], answers: &[u8])
    requires { records answers.now ≤ 12289 }
    ensures { Put page.old (four_lines input.now answers.now) page.new }
{
    for h in 0..4 {
        put_head(page, Output(h), input, answers);
    }
}
