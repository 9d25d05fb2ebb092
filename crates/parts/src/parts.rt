// What the lines about a state are made of, and numbers of several bytes.
ghost use Rattle.std.specs.Prelude.{[], ◌∷◌, ◌≡◌, ◌<◌, ◌≤◌};
ghost use Rattle.text.specs.Page.{Put};
ghost use Rattle.parts.specs.Parts.{word_at, long_at, marked, room_at, bytes_text, state_text, number_text, buffer_text};

use states::Machine;
use std::array;
use text::Page;

// Four bytes from byte k on, high byte first; bytes that are missing count as 0.
pub fn word_at(bytes: &[u8], k: u16) -> u64
    ensures { (result ≡ word_at bytes.now k) × (result < 4294967296) }
{
    let at = usize::from(k);
    u64::from(u32::from_be_bytes(array::from_fn(|i| image::byte_at(bytes, at + i))))
}

// Eight bytes in the same way.
pub fn long_at(bytes: &[u8], k: u8) -> u64
    ensures { result ≡ long_at bytes.now k }
{
    let at = usize::from(k);
    u64::from_be_bytes(array::from_fn(|i| image::byte_at(bytes, at + i)))
}

// The longest buffer that a call is lent, as it is before the call; a call of its own, since what it holds is promised once, for every caller.
pub fn marks() -> [u8; 65536]
    ensures { result ≡ marked 65536 }
{
    [165; 65536]
}

// How long a buffer the four bytes from byte k on ask for.
pub fn room_at(bytes: &[u8], k: u16) -> usize
    ensures { (result ≡ room_at bytes.now k) × (result ≤ 65536) }
{
    word_at(bytes, k).min(65536) as usize
}

// A number and a blank.
pub fn put_number(page: &mut Page, n: u64)
    ensures { Put page.old (number_text n) page.new }
{
    page.put_decimal(n);
    page.put_byte(b' ');
}

pub fn put_state(page: &mut Page, m: Machine)
    ensures { Put page.old (state_text m) page.new }
{
    page.put_hex(&image::image_of(m));
}

// Bytes in hex, or a dash where there are none.
pub fn put_bytes(page: &mut Page, bytes: &[u8])
    ensures { Put page.old (bytes_text bytes.now) page.new }
{
    if bytes.is_empty() {
        page.put_byte(b'-');
    } else {
        page.put_hex(bytes);
    }
}

// A line of a number and the buffer after the call.
pub fn put_buffer(page: &mut Page, n: u64, buffer: &[u8])
    ensures { Put page.old (buffer_text n buffer.now) page.new }
{
    put_number(page, n);
    put_bytes(page, buffer);
    page.put_byte(b'\n');
}
