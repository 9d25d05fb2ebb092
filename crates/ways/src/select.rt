// Which input an output lets through.
ghost use Rattle.std.specs.Prelude.{◌≡◌};
ghost use Rattle.ways.specs.Select.{selected};

use blocks::{four_nets, nets};

const SELECT: [u32; 6] = [
    // 0 low and 1 high: the holder's bits, 2 shut
    0x10000001, // 3 lowB = INV low
    0x10400001, // 4 highB = INV high
    0x50400803, // 5 lets0 = NOR high, low, shut: open, and the holder is 0
    0x50430803, // 6 lets1 = NOR high, lowB, shut: the holder is 1
    0x51000803, // 7 lets2 = NOR highB, low, shut: the holder is 2
    0x51030803, // 8 lets3 = NOR highB, lowB, shut: the holder is 3
];

pub fn selected(low: bool, high: bool, shut: bool) -> [bool; 4]
    ensures { result ≡ selected low high shut }
{
    let v = nets(&SELECT, &[low, high, shut]);
    four_nets(v, [5, 6, 7, 8])
}
