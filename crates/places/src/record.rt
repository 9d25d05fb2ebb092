// The records of a capture and the places of their answers.
ghost use Rattle.std.specs.Prelude.{◌≡◌, ◌+◌, ◌<◌, length};
ghost use Rattle.std.proofs.lemmas.List.Edits.{sets};
ghost use Rattle.places.specs.Capture.{five_at, record_at, with_answer};

use std::array;

fn five_at(capture: &[u8], at: usize) -> [u8; 5]
    requires { at + 4 < length capture.now }
    ensures { result ≡ five_at capture.now at }
{
    array::from_fn(|j| capture[at + j])
}

// Record k of a capture; zeros past its last whole record.
pub fn record_at(capture: &[u8], k: usize) -> [u8; 5]
    ensures { result ≡ record_at capture.now k }
{
    if k < capture.len() / 5 {
        five_at(capture, 5 * k)
    } else {
        [0; 5]
    }
}

fn put_five(buffer: &mut [u8], at: usize, answer: [u8; 5])
    requires { at + 4 < length buffer.old }
    ensures { buffer.new ≡ sets buffer.old at answer }
{
    buffer[at..at + 5].copy_from_slice(&answer);
}

// Writes the answer to record k into its place; a buffer without that place stays.
pub fn put_answer(buffer: &mut [u8], k: usize, answer: [u8; 5])
    ensures { buffer.new ≡ with_answer buffer.old k answer }
{
    if k < buffer.len() / 5 {
        put_five(buffer, 5 * k, answer);
    }
}
