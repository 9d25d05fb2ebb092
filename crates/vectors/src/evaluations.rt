// Lists of gate words handed to the evaluator: the words of document 01, and 10 to 13 at their edges and in their order.
ghost use Rattle.std.specs.Prelude.{◌≤◌};

use super::show;
use std::array;

// Two words, high byte first.
fn word_bytes(first: u32, second: u32) -> [u8; 8] {
    (u64::from(first) << 32 | u64::from(second)).to_be_bytes()
}

fn part(rt: &HostRuntime, title: &[u8], inputs: u8, input: u16, words: [u8; 8], n: usize)
    requires { n ≤ 8 }
{
    show::evaluated(rt, title, inputs, input, &words[..n]);
}

fn word(rt: &HostRuntime, title: &[u8], inputs: u8, input: u16, w: u32) {
    part(rt, title, inputs, input, word_bytes(w, 0), 4);
}

fn two_words(rt: &HostRuntime, title: &[u8], inputs: u8, input: u16, first: u32, second: u32) {
    part(rt, title, inputs, input, word_bytes(first, second), 8);
}

pub(crate) fn given(rt: &HostRuntime) {
    word(rt, b"AND of nets 1 and 2", 3, 6, 0x20420002);
    word(rt, b"an inverter of net 5", 6, 0, 0x11400001);
    word(rt, b"kind 8 on nets 0 to 3", 4, 3, 0x80010834);
}

pub(crate) fn inputs(rt: &HostRuntime) {
    word(rt, b"no block input", 0, 0, 0x00000001);
    word(rt, b"1 block input", 1, 1, 0x00000001);
    word(rt, b"8 block inputs", 8, 0xFF, 0x00000001);
    word(rt, b"9 block inputs", 9, 0, 0x00000001);
    show::evaluated(rt, b"no gates", 1, 1, b"");
}

// Words of 4 bytes, each a buffer of net 0.
fn buffers() -> [u8; 512] {
    array::from_fn(|i| u8::from(i % 4 == 3))
}

fn buffered(rt: &HostRuntime, title: &[u8], inputs: u8, n: usize)
    requires { n ≤ 512 }
{
    let words = buffers();
    show::evaluated(rt, title, inputs, 1, &words[..n]);
}

pub(crate) fn nets(rt: &HostRuntime) {
    buffered(rt, b"8 block inputs and 56 gates", 8, 224);
    buffered(rt, b"8 block inputs and 57 gates", 8, 228);
}

pub(crate) fn bits(rt: &HostRuntime) {
    word(rt, b"3 block inputs, bit 2", 3, 4, 0x00000001);
    word(rt, b"3 block inputs, bit 3", 3, 8, 0x00000001);
    word(rt, b"8 block inputs, bit 8", 8, 0x100, 0x00000001);
    word(rt, b"9 block inputs, bit 9", 9, 0x200, 0x00000001);
    word(rt, b"3 block inputs, bit 3, kind 9", 3, 8, 0x90000001);
}

pub(crate) fn kinds_and_counts(rt: &HostRuntime) {
    word(rt, b"kind 9 on nets 0 to 3", 4, 3, 0x90010834);
    two_words(
        rt,
        b"an inverter, then kind 9",
        1,
        0,
        0x10000001,
        0x90000001,
    );
    word(rt, b"a buffer of two nets", 2, 3, 0x00010002);
    word(rt, b"AND of one net", 2, 3, 0x20000001);
    word(rt, b"an inverter with an unused field", 2, 3, 0x10010001);
}

// The first gate over two block inputs makes net 2.
pub(crate) fn earlier_nets(rt: &HostRuntime) {
    word(rt, b"a buffer of net 1", 2, 2, 0x00400001);
    word(rt, b"a buffer of its own net", 2, 2, 0x00800001);
    word(rt, b"a buffer of a later net", 2, 2, 0x00C00001);
    two_words(
        rt,
        b"two buffers, the second of the first",
        2,
        2,
        0x00400001,
        0x00800001,
    );
    two_words(
        rt,
        b"two buffers, the second of its own net",
        2,
        2,
        0x00400001,
        0x00C00001,
    );
}

pub(crate) fn in_order(rt: &HostRuntime) {
    word(rt, b"kind 9 on its own net", 2, 2, 0x90800001);
    two_words(
        rt,
        b"a buffer of its own net, then kind 9",
        2,
        2,
        0x00800001,
        0x90000001,
    );
}
