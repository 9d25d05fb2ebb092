// An output's next holder.
ghost use Rattle.std.specs.Prelude.{◌≡◌};
ghost use Rattle.ways.specs.Turn.{number_of, turned};

use blocks::{lines, nets};

// Each of the holder's two bits goes by a JK rule: j sets it where it is 0, k clears it where it is 1.
const TURN: [u32; 25] = [
    // 0 to 3 r0 to r3: the input remains; 4 low and 5 high: the holder's bits; 6 routing
    0x10000001, // 7 r0B = INV r0
    0x10400001, // 8 r1B = INV r1
    0x10800001, // 9 r2B = INV r2
    0x10c00001, // 10 r3B = INV r3
    0x11400001, // 11 highB = INV high
    0x11000001, // 12 lowB = INV low
    0x11800001, // 13 routingB = INV routing
    0x41080002, // 14 past1 = OR low, r1B: input 1's turn is past, or it does not remain
    0x40c20002, // 15 some23 = OR r3, r2
    0x238f0002, // 16 highJ = AND past1, some23: from 0 or 1 the turn goes to 2 or 3
    0x410a0002, // 17 past3 = OR low, r3B: input 3's turn is past, or it does not remain
    0x40010002, // 18 some01 = OR r0, r1
    0x24520002, // 19 highK = AND past3, some01: from 2 or 3 the turn goes to 0 or 1
    0x41490002, // 20 by3 = OR high, r2B: 2 does not stand before 3
    0x42c70002, // 21 by1 = OR highB, r0B: 0 does not stand before 1
    0x85035414, // 22 lowJ = AO by3, r3, by1, r1: from 0 or 2 the turn goes to 1 or 3
    0x42c80002, // 23 by2 = OR highB, r1B: 1 does not stand before 2
    0x414a0002, // 24 by0 = OR high, r3B: 3 does not stand before 0
    0x85c26004, // 25 lowK = AO by2, r2, by0, r0: from 1 or 3 the turn goes to 0 or 2
    0x14c00001, // 26 highKB = INV highK
    0x16400001, // 27 lowKB = INV lowK
    0x840b6854, // 28 highT = AO highJ, highB, highKB, high: the winner's high bit
    0x858c6c44, // 29 lowT = AO lowJ, lowB, lowKB, low: the winner's low bit
    0x819c3454, // 30 highN = AO routing, highT, routingB, high: the next holder's high bit
    0x819d3444, // 31 lowN = AO routing, lowT, routingB, low: the next holder's low bit
];

// The two bits of a holder's number.
#[derive(Clone, Copy)]
pub struct Holder {
    pub low: bool,
    pub high: bool,
}

pub fn turned(remain: [bool; 4], low: bool, high: bool, routing: bool) -> Holder
    ensures { result ≡ turned remain low high routing }
{
    let v = nets(
        &TURN,
        &[
            remain[0], remain[1], remain[2], remain[3], low, high, routing,
        ],
    );
    Holder {
        low: words::net(v, 31),
        high: words::net(v, 30),
    }
}

// The number of an input, of its two bits.
pub fn number_of(h: Holder) -> u8
    ensures { result ≡ number_of h }
{
    lines(&[h.low, h.high])
}
