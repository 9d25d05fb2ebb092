// Answers the requests on standard input, a line for each, until the input ends.
#![tactic(auto)]

ghost use Rattle.std.specs.Prelude.{◌≡◌, ◌++◌, ◌≤◌, length, take, IfOk};
ghost use Rattle.std.specs.Io.KnownBytes.{Consumes};
ghost use Rattle.io.specs.Counts.{IsPrefixLen};

use input::Stream;
use std::io::{self, Read};
use text::Page;

// Reads a header and the payload that it announces, and answers how many bytes there are of each.
fn read_request<R: Read>(
    from: &mut R,
    header: &mut [u8],
    payload: &mut [u8],
) -> io::Result<(usize, usize)>
    requires { 65536 ≡ length payload.old }
    ensures header { IfOk result (λ n. IsPrefixLen n.0 header.new) }
    ensures payload { IfOk result (λ n. IsPrefixLen n.1 payload.new) }
    ensures bytes { IfOk result (λ n. Consumes (R.remaining from.old) (R.remaining from.new)
        (take n.0 header.new ++ take n.1 payload.new)) }
{
    let h = input::fill(&mut *from, &mut *header)?;
    let n = requests::payload_length(&header[..h]);
    let p = input::fill(from, &mut payload[..n])?;
    Ok((h, p))
}

// Reads a request, writes its line, and answers whether to go on, or what went wrong. `out` has room for the longest line: 65,536 bytes in hex, and what
// stands before them.
fn answer_one<R: Read>(
    rt: &HostRuntime,
    from: &mut R,
    out: &mut [u8],
) -> Result<bool, &'static [u8]>
    requires { 131328 ≤ length out.old }
{
    let mut header = [0u8; 5];
    let mut payload = [0u8; 65536];
    let Ok((h, p)) = read_request(from, &mut header, &mut payload) else {
        return Err(b"cannot read the requests\n");
    };
    let mut page = Page::new(out);
    let last = requests::put_reply(&mut page, &header[..h], &payload[..p]);
    match input::write_all(rt, Stream::Output, page.text()) {
        Ok(()) => Ok(!last),
        Err(_) => Err(b"cannot write the answers\n"),
    }
}

// A proved loop has to end, and nothing says that the requests do: it takes its turns, up to a number that no run uses up.
fn main(rt: HostRuntime) {
    let mut from = rt.stdin();
    let mut space = [0u8; 131328];
    for _ in 0..u64::MAX {
        match answer_one(&rt, &mut from, &mut space) {
            Ok(true) => {}
            Ok(false) => break,
            Err(trouble) => {
                let _ = input::write_all(&rt, Stream::Error, trouble);
                break;
            }
        }
    }
}
