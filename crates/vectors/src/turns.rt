// The turn: one cycle in which the headers are routed.
use super::{handed_in, show};

// The holder of output 1, and the headers of inputs 0 to 3.
fn turn(rt: &HostRuntime, title: &[u8], holder: u8, headers: [u8; 4]) {
    let image = handed_in::image(true, [true; 4], [0, holder, 0, 0], headers);
    show::cycled(rt, title, &image, b"\0\0\0\0\0");
}

// Where nobody asks for output 1, input 0 asks for output 3, so that there is a routing.
pub(crate) fn edges(rt: &HostRuntime) {
    turn(
        rt,
        b"holder 3, only input 3 asks",
        3,
        [0x02, 0x02, 0x02, 0x05],
    );
    turn(
        rt,
        b"holder 0, inputs 0 and 1 low",
        0,
        [0x05, 0x05, 0x02, 0x02],
    );
    turn(
        rt,
        b"holder 3, inputs 0 and 3 low",
        3,
        [0x05, 0x02, 0x02, 0x05],
    );
    turn(
        rt,
        b"holder 1, input 2 low and 1 high",
        1,
        [0x02, 0x07, 0x05, 0x02],
    );
    turn(rt, b"holder 2, nobody asks", 2, [0x0D, 0x02, 0x02, 0x02]);
}
