// Saved states taken up: 5, 6, 7 and 8 at their edges and in their order.
ghost use Rattle.std.specs.Prelude.{◌≤◌};

use super::show;

// A word and zeros, n bytes in all.
fn bytes(rt: &HostRuntime, title: &[u8], n: usize, word: u16)
    requires { n ≤ 19 }
{
    let [high, low] = word.to_be_bytes();
    let all = [high, low, 0, 0, 0, 0, 0, 0, 0, 0, 0, 0, 0, 0, 0, 0, 0, 0, 0];
    show::taken_up(rt, title, &all[..n]);
}

pub(crate) fn lengths(rt: &HostRuntime) {
    bytes(rt, b"reset, 17 bytes", 17, 0x7800);
    bytes(rt, b"reset, 18 bytes", 18, 0x7800);
    bytes(rt, b"reset, 19 bytes", 19, 0x7800);
    bytes(rt, b"the end state of document 01", 18, 0x2C20);
}

pub(crate) fn zero_bits(rt: &HostRuntime) {
    bytes(rt, b"bit 0 set", 18, 0x7801);
    bytes(rt, b"bit 1 set", 18, 0x7802);
    bytes(rt, b"bit 2 set", 18, 0x7804);
    bytes(rt, b"bit 3 set", 18, 0x7808);
}

pub(crate) fn waiting(rt: &HostRuntime) {
    bytes(rt, b"waiting, all shut", 18, 0xF800);
    bytes(rt, b"waiting, one output open", 18, 0xB800);
    bytes(rt, b"running, one output open", 18, 0x3800);
}

pub(crate) fn open_twice(rt: &HostRuntime) {
    bytes(rt, b"two outputs open, one holder", 18, 0x5088);
    bytes(rt, b"two outputs open, two holders", 18, 0x5108);
    bytes(rt, b"one holder, one of the two outputs shut", 18, 0x7088);
}

// Reasons for 5, 6, 7 and 8 at once, then one fewer each time.
pub(crate) fn in_order(rt: &HostRuntime) {
    bytes(rt, b"17 bytes, with 6, 7 and 8", 17, 0xD08F);
    bytes(rt, b"6, 7 and 8 at once", 18, 0xD08F);
    bytes(rt, b"7 and 8 at once", 18, 0xD088);
}
