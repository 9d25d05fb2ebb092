// The line that is said of a head.
ghost use Rattle.text.specs.Page.{Put};
ghost use Rattle.text.specs.Differ.{first_difference};
ghost use Rattle.numerals.specs.Line.{found, head_line};

use super::part;
use text::Page;

fn put_found(page: &mut Page, station: &[u8], head: &[u8])
    ensures { Put page.old (found (first_difference station.now head.now) station.now head.now) page.new }
{
    match text::first_difference(station, head) {
        None => page.put_text(b" same"),
        Some(k) => {
            page.put_byte(b' ');
            page.put_decimal(k as u64);
            page.put_byte(b' ');
            page.put_hex(part::piece_at(station, head, k));
        }
    }
}

// `station` is the text that is due at head h, and `head` what it showed.
pub fn put_line(page: &mut Page, h: u8, station: &[u8], head: &[u8])
    ensures { Put page.old (head_line h station.now head.now) page.new }
{
    page.put_decimal(u64::from(h));
    put_found(page, station, head);
    page.put_byte(b'\n');
}
