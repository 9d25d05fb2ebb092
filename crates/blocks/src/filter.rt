// Who of an output's askers remains.
ghost use Rattle.std.specs.Prelude.{◌≡◌};
ghost use Rattle.blocks.specs.Filter.{filtered};

use super::line::{four_nets, nets};

const FILTER: [u32; 12] = [
    // 0 to 3 high0 to high3: the input asks in the high class; 4 to 7 asks0 to asks3: it asks
    0x50420c03, // 8 alone0 = NOR high1, high2, high3: no other input asks in the high class
    0x22040002, // 9 low0 = AND alone0, asks0: input 0 asks and no other is above it
    0x42400002, // 10 remains0 = OR low0, high0: input 0 is not set aside
    0x50020c03, // 11 alone1 = NOR high0, high2, high3
    0x22c50002, // 12 low1 = AND alone1, asks1
    0x43010002, // 13 remains1 = OR low1, high1
    0x50010c03, // 14 alone2 = NOR high0, high1, high3
    0x23860002, // 15 low2 = AND alone2, asks2
    0x43c20002, // 16 remains2 = OR low2, high2
    0x50010803, // 17 alone3 = NOR high0, high1, high2
    0x24470002, // 18 low3 = AND alone3, asks3
    0x44830002, // 19 remains3 = OR low3, high3
];

pub fn filtered(high: [bool; 4], asks: [bool; 4]) -> [bool; 4]
    ensures { result ≡ filtered high asks }
{
    let v = nets(
        &FILTER,
        &[
            high[0], high[1], high[2], high[3], asks[0], asks[1], asks[2], asks[3],
        ],
    );
    four_nets(v, [10, 13, 16, 19])
}
