// One bit of four: a data bit, or an acknowledgement.
ghost use Rattle.std.specs.Prelude.{◌≡◌};
ghost use Rattle.ways.specs.Choose.{chosen};

use blocks::nets;

const CHOOSE: [u32; 3] = [
    // 0 to 3 bit0 to bit3, 4 to 7 lets0 to lets3: the bit is let through
    0x80040454, // 8 by01 = AO bit0, lets0, bit1, lets1
    0x80860c74, // 9 by23 = AO bit2, lets2, bit3, lets3
    0x42090002, // 10 out = OR by01, by23
];

pub fn chosen(bits: [bool; 4], lets: [bool; 4]) -> bool
    ensures { result ≡ chosen bits lets }
{
    let v = nets(
        &CHOOSE,
        &[
            bits[0], bits[1], bits[2], bits[3], lets[0], lets[1], lets[2], lets[3],
        ],
    );
    words::net(v, 10)
}
