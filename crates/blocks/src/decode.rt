// What one header asks for.
ghost use Rattle.std.specs.Prelude.{◌≡◌};
ghost use Rattle.blocks.specs.Decode.{decoded};

use super::line::{four_nets, nets};

const DECODE: [u32; 10] = [
    // 0 active, 1 priority, 2 bit2 and 3 bit3: the bits of the header that name an output, bit3 the higher one
    0x10800001, // 4 bit2B = INV bit2
    0x10c00001, // 5 bit3B = INV bit3
    0x20011444, // 6 high0 = AND active, priority, bit3B, bit2B: asks for output 0 in the high class
    0x20011424, // 7 high1 = AND active, priority, bit3B, bit2: output 1
    0x20010c44, // 8 high2 = AND active, priority, bit3, bit2B: output 2
    0x20010c24, // 9 high3 = AND active, priority, bit3, bit2: output 3
    0x20051003, // 10 asks0 = AND active, bit3B, bit2B: asks for output 0
    0x20050803, // 11 asks1 = AND active, bit3B, bit2: output 1
    0x20031003, // 12 asks2 = AND active, bit3, bit2B: output 2
    0x20030803, // 13 asks3 = AND active, bit3, bit2: output 3
];

// For each output, whether the header asks for it in the high class, and whether it asks for it.
#[derive(Clone, Copy)]
pub struct Requests {
    pub high: [bool; 4],
    pub asks: [bool; 4],
}

pub fn decoded(active: bool, priority: bool, bit2: bool, bit3: bool) -> Requests
    ensures { result ≡ decoded active priority bit2 bit3 }
{
    let v = nets(&DECODE, &[active, priority, bit2, bit3]);
    Requests {
        high: four_nets(v, [6, 7, 8, 9]),
        asks: four_nets(v, [10, 11, 12, 13]),
    }
}
