// The packed records, 5 bytes each.
ghost use Rattle.std.specs.Prelude.{◌≡◌};
ghost use Rattle.routing.specs.Four.{four, bit_at};
ghost use Rattle.records.specs.Record.{inputs_from, record_of, answer_bytes, answer_from};

use fabric::Inputs;
use std::array;

// The four low bits of a byte as flags, the lowest first.
fn low_flags(b: u8) -> [bool; 4]
    ensures { result ≡ four (λ n. bit_at n b) }
{
    array::from_fn(|n| (b >> n) % 2 == 1)
}

// A cycle's inputs from a capture record.
pub fn inputs_from(b: [u8; 5]) -> Inputs
    ensures { result ≡ inputs_from b }
{
    let [head, b0, b1, b2, b3] = b;
    Inputs {
        frame: head / 128 % 2 == 1,
        bytes: [b0, b1, b2, b3],
        acks: low_flags(head),
    }
}

// A capture record from a cycle's inputs.
pub fn record_of(i: Inputs) -> [u8; 5]
    ensures { result ≡ record_of i }
{
    let [b0, b1, b2, b3] = i.bytes;
    [
        128 * u8::from(i.frame) + routing::mask(i.acks),
        b0,
        b1,
        b2,
        b3,
    ]
}

// A cycle's answer: the acknowledgements to the inputs and the shown head bytes.
#[derive(Clone, Copy)]
pub struct Answer {
    pub acks: [bool; 4],
    pub heads: [u8; 4],
}

// An answer record from the acknowledgements to the inputs and the shown head bytes.
pub fn answer_bytes(acks: [bool; 4], heads: [u8; 4]) -> [u8; 5]
    ensures { result ≡ answer_bytes acks heads }
{
    let [h0, h1, h2, h3] = heads;
    [routing::mask(acks), h0, h1, h2, h3]
}

// A cycle's answer from an answer record.
pub fn answer_from(b: [u8; 5]) -> Answer
    ensures { result ≡ answer_from b }
{
    let [to, h0, h1, h2, h3] = b;
    Answer {
        acks: low_flags(to),
        heads: [h0, h1, h2, h3],
    }
}
