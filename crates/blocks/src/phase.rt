// Whether a routing happens, and the next phase.
ghost use Rattle.std.specs.Prelude.{◌≡◌};
ghost use Rattle.blocks.specs.Phase.{phased};

use super::line::nets;

const PHASE: [u32; 5] = [
    // 0 waiting, 1 start: frame start, 2 to 5 active0 to active3: the header is active
    0x40831054, // 6 some = OR active0, active1, active2, active3: some header is active
    0x20060002, // 7 routing = AND waiting, some
    0x11c00001, // 8 routingB = INV routing
    0x20080002, // 9 stays = AND waiting, routingB: waiting, and nothing ends it
    0x42410002, // 10 next = OR stays, start: the next phase is waiting
];

#[derive(Clone, Copy)]
pub struct Timing {
    pub routing: bool,
    pub waiting: bool,
}

pub fn phased(waiting: bool, start: bool, active: [bool; 4]) -> Timing
    ensures { result ≡ phased waiting start active }
{
    let v = nets(
        &PHASE,
        &[waiting, start, active[0], active[1], active[2], active[3]],
    );
    Timing {
        routing: words::net(v, 7),
        waiting: words::net(v, 10),
    }
}
