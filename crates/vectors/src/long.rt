// Captures about as long as a replay takes. Of these no buffer is printed, only `done` or the refusal line.
ghost use Rattle.std.specs.Prelude.{◌≤◌};

use super::show;
use capture::{Engine, Rules};
use engine::Gates;
use states::{Machine, Refused};
use text::Page;

// 12,289 records and one byte.
const LONGEST: usize = 61446;

fn outcome(rt: &HostRuntime, title: &[u8], how: &[u8], t: Result<Machine, Refused>) {
    let mut space = [0u8; 512];
    let mut page = Page::new(&mut space);
    match t {
        Ok(_) => page.put_text(b"done\n"),
        Err(refused) => {
            listing::put_refusal(&mut page, refused.why.number(), refused.why.index());
        }
    }
    show::say(rt, title, how, page.text());
}

fn by<E: Engine>(engine: &E, rt: &HostRuntime, title: &[u8], how: &[u8], bytes: &[u8], room: usize)
    requires { room ≤ 61446 }
{
    let mut answers = [0u8; LONGEST];
    let t = capture::replay(
        engine,
        states::reset_state(),
        states::reset_rows(),
        bytes,
        &mut answers[..room],
    );
    outcome(rt, title, how, t);
}

fn by_both(rt: &HostRuntime, title: &[u8], bytes: &[u8], room: usize)
    requires { room ≤ 61446 }
{
    by(&Rules, rt, title, b", replayed by the rules: ", bytes, room);
    by(&Gates, rt, title, b", replayed by the gates: ", bytes, room);
}

// A capture of n bytes, zeros but for byte 0 of record 12,287, with an answer buffer of `room` bytes.
fn replayed(rt: &HostRuntime, title: &[u8], last: u8, n: usize, room: usize)
    requires { (n ≤ 61446) × (room ≤ 61446) }
{
    let mut bytes = [0u8; LONGEST];
    bytes[61435] = last;
    by_both(rt, title, &bytes[..n], room);
}

pub(crate) fn records(rt: &HostRuntime) {
    replayed(rt, b"12,288 records", 0, 61440, 61440);
    replayed(rt, b"12,288 records and 4 bytes", 0, 61444, 61444);
    replayed(rt, b"12,289 records", 0, 61445, 61445);
}

// Reasons for 1, 4, 2 and 3 at once, then one fewer each time.
pub(crate) fn in_order(rt: &HostRuntime) {
    replayed(
        rt,
        b"12,289 records and 1 byte, buffer one byte short, bit 4 in record 12,287",
        16,
        61446,
        61445,
    );
    replayed(
        rt,
        b"12,289 records, buffer one byte short, bit 4 in record 12,287",
        16,
        61445,
        61444,
    );
    replayed(
        rt,
        b"12,288 records, buffer one byte short, bit 4 in record 12,287",
        16,
        61440,
        61439,
    );
    replayed(
        rt,
        b"12,288 records, bit 4 in record 12,287",
        16,
        61440,
        61440,
    );
}
