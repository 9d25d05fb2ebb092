// A state image of 25 bytes, written and read.
ghost use Rattle.std.specs.Prelude.{[], ◌∷◌, ◌≡◌, ◌<◌};
ghost use Rattle.records.specs.Record.{byte_at};
ghost use Rattle.image.specs.Image.{image_of, row_from, rows_from, set, state_from};

use routing::Input;
use states::{Machine, State};
use std::array;

pub fn image_of(m: Machine) -> [u8; 25]
    ensures { result ≡ image_of m }
{
    let State {
        waiting,
        shut,
        holders,
    } = m.state;
    let [first, second, switched, heads] = m.rows;
    // byte by byte, so that the layout can be read off here
    [
        u8::from(waiting),
        u8::from(shut[0]),
        u8::from(shut[1]),
        u8::from(shut[2]),
        u8::from(shut[3]),
        holders[0].0,
        holders[1].0,
        holders[2].0,
        holders[3].0,
        first[0],
        first[1],
        first[2],
        first[3],
        second[0],
        second[1],
        second[2],
        second[3],
        switched[0],
        switched[1],
        switched[2],
        switched[3],
        heads[0],
        heads[1],
        heads[2],
        heads[3],
    ]
}

// Byte k; past the last byte, 0.
pub fn byte_at(bytes: &[u8], k: usize) -> u8
    ensures { result ≡ byte_at bytes.now k }
{
    bytes.get(k).copied().unwrap_or(0)
}

fn set_at(bytes: &[u8], k: usize) -> bool
    ensures { result ≡ set bytes.now k }
{
    byte_at(bytes, k) != 0
}

// The state at the start of bytes that hold an image; bytes that are missing count as 0.
pub fn state_from(bytes: &[u8]) -> State
    ensures { result ≡ state_from bytes.now }
{
    State {
        waiting: set_at(bytes, 0),
        shut: array::from_fn(|o| set_at(bytes, 1 + o)),
        holders: array::from_fn(|o| Input(byte_at(bytes, 5 + o))),
    }
}

fn row_from(bytes: &[u8], k: usize) -> [u8; 4]
    requires { k < 32 }
    ensures { result ≡ row_from bytes.now k }
{
    array::from_fn(|i| byte_at(bytes, k + i))
}

pub fn rows_from(bytes: &[u8]) -> [[u8; 4]; 4]
    ensures { result ≡ rows_from bytes.now }
{
    [
        row_from(bytes, 9),
        row_from(bytes, 13),
        row_from(bytes, 17),
        row_from(bytes, 21),
    ]
}
