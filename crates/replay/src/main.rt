// Replays standard input from reset by both engines and prints the listing or the refusal line; where the engines differ, nothing but where they
// do, on standard error.
#![tactic(auto)]

ghost use Rattle.std.specs.Prelude.{true, ◌≡◌, ◌≤◌, length, take, IfOk, IfSome};
ghost use Rattle.text.specs.Page.{Put};
ghost use Rattle.verdict.specs.Printed.{printed};

use input::Stream;
use std::io::{self, Read};
use text::Page;

// Puts what is printed of a capture on the page, and answers whether the engines agree; the capture is all that the reader has. On an empty page with
// room for the longest listing all of it stands there then, and nothing else.
fn put_printed<R: Read>(from: &mut R, page: &mut Page) -> io::Result<bool>
    requires { (page.old.place ≡ 0) × (262144 ≤ length page.old.bytes.now) }
    ensures agreed { IfOk result (λ agreed. agreed ≡ true) }
    ensures writes { IfOk result (λ agreed. IfSome (R.remaining from.old)
        (λ capture. Put page.old (printed capture) page.new)) }
    ensures whole { IfOk result (λ agreed. IfSome (R.remaining from.old)
        (λ capture. take page.new.place page.new.bytes.now ≡ printed capture)) }
{
    let mut kept = [0u8; 65536];
    let total = input::take_in(from, &mut kept)?;
    Ok(verdict::replay_by_both(&kept, total, page))
}

// Writes what is printed, or answers what went wrong.
fn answer(rt: &HostRuntime) -> Result<(), &'static [u8]> {
    let mut space = [0u8; 262144];
    let mut page = Page::new(&mut space);
    let Ok(agreed) = put_printed(&mut rt.stdin(), &mut page) else {
        return Err(b"cannot read the capture\n");
    };
    match input::write_all(rt, verdict::stream(agreed), page.text()) {
        Ok(()) => Ok(()),
        Err(_) => Err(b"cannot write the listing\n"),
    }
}

fn main(rt: HostRuntime) {
    if let Err(trouble) = answer(&rt) {
        let _ = input::write_all(&rt, Stream::Error, trouble);
    }
}
