// Replays: the one that document 01 gives whole, empty captures, lengths and buffers, spare bits, and frame starts close behind a header.
ghost use Rattle.std.specs.Prelude.{◌≤◌};

use super::show;
use capture::{Engine, Rules};
use engine::Gates;

// The state that an engine leaves, saved; the capture is not refused.
fn end_saved<E: Engine>(engine: &E, rt: &HostRuntime, title: &[u8], bytes: &[u8]) {
    let s = states::reset_state();
    let rows = states::reset_rows();
    let mut answers = [0u8; 55];
    let end = match capture::replay(engine, s, rows, bytes, &mut answers) {
        Ok(machine) => machine,
        Err(refused) => refused.machine,
    };
    show::saved(rt, title, &image::image_of(end), 18);
}

fn with_end(rt: &HostRuntime, bytes: &[u8]) {
    show::replayed(rt, b"the capture of document 01", 55, bytes);
    end_saved(&Rules, rt, b"its end state by the rules", bytes);
    end_saved(&Gates, rt, b"its end state by the gates", bytes);
}

pub(crate) fn whole(rt: &HostRuntime) {
    with_end(
        rt,
        b"\x82\0\0\0\0\x02\0\0\0\0\x02\x05\x07\x0D\0\x02\x32\x32\x31\0\
          \x02\x39\x2E\x30\0\x02\x39\x35\x34\0\x02\0\0\0\0\x02\0\0\0\0\
          \x02\0\0\0\0\x02\0\0\0\0\x02\0\0\0\0",
    );
}

// The other state waits, its holders are 3, 2, 1 and 0, and its bytes are 01 to 10.
pub(crate) fn empty(rt: &HostRuntime) {
    show::replayed(rt, b"an empty capture", 0, b"");
    show::replayed(rt, b"an empty capture with a buffer", 5, b"");
    show::replayed_from(
        rt,
        b"an empty capture, not from reset",
        b"\x01\x01\x01\x01\x01\x03\x02\x01\0\x01\x02\x03\x04\x05\x06\x07\x08\x09\x0A\x0B\x0C\x0D\x0E\x0F\x10",
        5,
        b"",
    );
}

// A capture of n bytes, zeros but for byte 0 of the first two records.
fn short(rt: &HostRuntime, title: &[u8], room: u8, n: usize, first: u8, second: u8)
    requires { n ≤ 11 }
{
    let bytes = [first, 0, 0, 0, 0, second, 0, 0, 0, 0, 0];
    show::replayed(rt, title, room, &bytes[..n]);
}

pub(crate) fn lengths(rt: &HostRuntime) {
    short(rt, b"4 bytes, buffer of 5", 5, 4, 0, 0);
    short(rt, b"5 bytes, buffer of 5", 5, 5, 0, 0);
    short(rt, b"5 bytes, buffer of 4", 4, 5, 0, 0);
    short(rt, b"5 bytes, buffer of 7", 7, 5, 0, 0);
}

pub(crate) fn spare_bits(rt: &HostRuntime) {
    short(rt, b"bit 4 in the second record", 10, 10, 0, 0x10);
    short(rt, b"bit 5 in the second record", 10, 10, 0, 0x20);
    short(rt, b"bit 6 in the second record", 10, 10, 0, 0x40);
    short(rt, b"bit 7 in the second record", 10, 10, 0, 0x80);
    short(rt, b"bit 4 in both records", 10, 10, 0x10, 0x10);
}

// Reasons for 1, 2 and 3 at once, then one fewer.
pub(crate) fn in_order(rt: &HostRuntime) {
    short(rt, b"11 bytes, buffer of 5, bit 4", 5, 11, 0, 0x10);
    short(rt, b"10 bytes, buffer of 5, bit 4", 5, 10, 0, 0x10);
}

// Input 2 asks for output 1 in cycle 1 and sends 40 in cycle 2; every output acknowledges in every cycle. The next frame start falls two or three
// cycles after the header.
pub(crate) fn frame_starts(rt: &HostRuntime) {
    show::replayed(
        rt,
        b"a frame start 2 cycles after the header",
        35,
        b"\x8F\0\0\0\0\x0F\0\0\x05\0\x0F\0\0\x40\0\x8F\0\0\0\0\x0F\0\0\0\0\x0F\0\0\0\0\x0F\0\0\0\0",
    );
    show::replayed(
        rt,
        b"a frame start 3 cycles after the header",
        35,
        b"\x8F\0\0\0\0\x0F\0\0\x05\0\x0F\0\0\x40\0\x0F\0\0\0\0\x8F\0\0\0\0\x0F\0\0\0\0\x0F\0\0\0\0",
    );
}
