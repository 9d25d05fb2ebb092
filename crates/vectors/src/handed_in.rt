// States handed in to a cycle, a replay and saving: 14, 7 and 8 at their edges and in their order, before all else; and 9.
use super::show;
use routing::Input;
use states::{Machine, State};

const OPEN: bool = false;

const SHUT: bool = true;

// Each output open or shut, the holders, and the second latches; all other bytes are zero.
pub(crate) fn image(waiting: bool, shut: [bool; 4], holders: [u8; 4], second: [u8; 4]) -> [u8; 25] {
    let holders = holders.map(Input);
    let zeros = [0u8; 4];
    let state = State {
        waiting,
        shut,
        holders,
    };
    let rows = [zeros, second, zeros, zeros];
    image::image_of(Machine { state, rows })
}

// The record has every acknowledgement, and four bytes that ask nothing.
fn tried(rt: &HostRuntime, title: &[u8], waiting: bool, shut: [bool; 4], holders: [u8; 4]) {
    let bytes = image(waiting, shut, holders, [0; 4]);
    let record = b"\x0F\x02\x04\x06\x08";
    show::cycled(rt, title, &bytes, record);
    show::replayed_from(rt, title, &bytes, 5, record);
    show::saved(rt, title, &bytes, 18);
}

pub(crate) fn holders(rt: &HostRuntime) {
    tried(rt, b"a holder of 3", false, [SHUT; 4], [0, 0, 3, 0]);
    tried(rt, b"a holder of 4", false, [SHUT; 4], [0, 0, 4, 0]);
}

pub(crate) fn waiting(rt: &HostRuntime) {
    tried(rt, b"waiting, all shut", true, [SHUT; 4], [0; 4]);
    tried(
        rt,
        b"waiting, one output open",
        true,
        [SHUT, SHUT, SHUT, OPEN],
        [0; 4],
    );
    tried(
        rt,
        b"running, one output open",
        false,
        [SHUT, SHUT, SHUT, OPEN],
        [0; 4],
    );
}

pub(crate) fn open_twice(rt: &HostRuntime) {
    tried(
        rt,
        b"two outputs open, one holder",
        false,
        [OPEN, SHUT, OPEN, SHUT],
        [1, 0, 1, 0],
    );
    tried(
        rt,
        b"two outputs open, two holders",
        false,
        [OPEN, SHUT, OPEN, SHUT],
        [1, 0, 2, 0],
    );
    tried(
        rt,
        b"one holder, one of the two outputs shut",
        false,
        [OPEN, SHUT, SHUT, SHUT],
        [1, 0, 1, 0],
    );
}

pub(crate) fn in_order(rt: &HostRuntime) {
    tried(
        rt,
        b"14, 7 and 8 at once",
        true,
        [OPEN, SHUT, OPEN, SHUT],
        [4, 0, 4, 0],
    );
    tried(
        rt,
        b"7 and 8 at once",
        true,
        [OPEN, SHUT, OPEN, SHUT],
        [1, 0, 1, 0],
    );
}

pub(crate) fn room(rt: &HostRuntime) {
    let reset = image(false, [SHUT; 4], [0; 4], [0; 4]);
    show::saved(rt, b"reset, buffer of 17", &reset, 17);
    show::saved(rt, b"reset, buffer of 18", &reset, 18);
    show::saved(rt, b"reset, buffer of 20", &reset, 20);
}

pub(crate) fn before_all_else(rt: &HostRuntime) {
    let twice = image(false, [OPEN, SHUT, OPEN, SHUT], [1, 0, 1, 0], [0; 4]);
    show::saved(
        rt,
        b"two outputs open, one holder, buffer of 17",
        &twice,
        17,
    );
    show::replayed_from(
        rt,
        b"two outputs open, one holder, 4 bytes",
        &twice,
        4,
        b"\0\0\0\0",
    );
}
