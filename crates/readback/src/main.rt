// Reads the texts due at the four heads and the capture behind them from standard input, and prints a line for each head, or the one line that refuses
// the input; where the engines differ, nothing but where they do, on standard error.
#![tactic(auto)]

ghost use Rattle.std.specs.Prelude.{true, ◌≡◌, ◌≤◌, length, take, IfOk, IfSome};
ghost use Rattle.text.specs.Page.{Put};
ghost use Rattle.readings.specs.ReadBack.{read_kept};

use input::Stream;
use std::io::{self, Read};
use text::Page;

// Puts what is printed of texts and a capture on the page; they are all that the reader has. Of an input of bytes it is what is printed of the whole.
// The page is empty and has room for the longest lines: four pieces of 12,288 bytes in hex, and what stands around them.
fn put_printed<R: Read>(from: &mut R, page: &mut Page) -> io::Result<bool>
    requires { (page.old.place ≡ 0) × (131072 ≤ length page.old.bytes.now) }
    ensures agreed { IfOk result (λ agreed. agreed ≡ true) }
    ensures writes { IfOk result (λ agreed. IfSome (R.remaining from.old)
        (λ whole. Put page.old (read_kept (take 65536 whole) (length whole)) page.new)) }
{
    let mut kept = [0u8; 65536];
    let total = input::take_in(from, &mut kept)?;
    Ok(readings::read_back(&kept, total, page))
}

// Writes what is printed, or answers what went wrong.
fn answer(rt: &HostRuntime) -> Result<(), &'static [u8]> {
    let mut space = [0u8; 131072];
    let mut page = Page::new(&mut space);
    let Ok(agreed) = put_printed(&mut rt.stdin(), &mut page) else {
        return Err(b"cannot read the texts and the capture\n");
    };
    match input::write_all(rt, verdict::stream(agreed), page.text()) {
        Ok(()) => Ok(()),
        Err(_) => Err(b"cannot write the lines\n"),
    }
}

fn main(rt: HostRuntime) {
    if let Err(trouble) = answer(&rt) {
        let _ = input::write_all(&rt, Stream::Error, trouble);
    }
}
