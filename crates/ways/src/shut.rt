// An output's next shut flag.
ghost use Rattle.std.specs.Prelude.{◌≡◌};
ghost use Rattle.ways.specs.Shut.{shut_next};

use blocks::nets;

const SHUT: [u32; 5] = [
    // 0 shut, 1 start: frame start, 2 routing, 3 to 6 r0 to r3: the input remains
    0x40c41464, // 7 asked = OR r0, r1, r2, r3
    0x21c20002, // 8 opens = AND asked, routing
    0x12000001, // 9 opensB = INV opens
    0x20090002, // 10 stays = AND shut, opensB
    0x42810002, // 11 next = OR stays, start: shut in the next cycle
];

pub fn shut_next(shut: bool, start: bool, routing: bool, remain: [bool; 4]) -> bool
    ensures { result ≡ shut_next shut start routing remain }
{
    let v = nets(
        &SHUT,
        &[
            shut, start, routing, remain[0], remain[1], remain[2], remain[3],
        ],
    );
    words::net(v, 11)
}
