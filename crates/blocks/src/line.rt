// A block's inputs as a number, the first in bit 0, and the nets that its table makes of them. A byte is made of its bits in the same way.
ghost use Rattle.std.specs.Prelude.{◌≡◌, length, get_or, take};
ghost use Rattle.routing.specs.Four.{four, bit_at};
ghost use Rattle.gates.specs.Evaluation.{value_of};
ghost use Rattle.blocks.specs.Lines.{lines};

// Of more than eight bits it takes the first eight.
pub fn lines(bits: &[bool]) -> u8
    ensures { result ≡ lines (take 8 bits.now) }
{
    let first = &bits[..bits.len().min(8)];
    let mut n = 0u8;
    for (i, &b) in first.iter().enumerate() {
        n += u8::from(b) << i;
    }
    n
}

// The nets of a table over its block inputs. No table has more than eight.
pub fn nets(table: &[u32], inputs: &[bool]) -> u64
    ensures { result ≡ value_of table.now (length inputs.now) (lines inputs.now) }
{
    gates::value(table, inputs.len(), u64::from(lines(inputs)))
}

// Four nets of an evaluation.
pub fn four_nets(v: u64, places: [u32; 4]) -> [bool; 4]
    ensures { result ≡ four (λ k. bit_at (get_or places k 0) v) }
{
    places.map(|n| words::net(v, n))
}
