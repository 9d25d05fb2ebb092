// N and H: the piece of two texts, and the bytes of a head.
ghost use Rattle.std.specs.Prelude.{◌≤◌, length};
ghost use Rattle.text.specs.Page.{Put};
ghost use Rattle.text.specs.Differ.{first_difference};
ghost use Rattle.call_numerals.specs.Calls.{place_text, piece_text, piece_line, shown_text, shown_line};

use routing::Output;
use text::Page;

fn put_place(page: &mut Page, station: &[u8], head: &[u8])
    ensures { Put page.old (place_text (first_difference station.now head.now)) page.new }
{
    match numerals::first_difference(station, head) {
        None => page.put_text(b"same "),
        Some(k) => parts::put_number(page, k as u64),
    }
}

fn put_found(page: &mut Page, station: &[u8], head: &[u8])
    ensures { Put page.old (piece_text station.now head.now) page.new }
{
    put_place(page, station, head);
    parts::put_bytes(page, numerals::piece(station, head));
    page.put_byte(b'\n');
}

pub fn put_piece(page: &mut Page, payload: &[u8])
    ensures { Put page.old (piece_line payload.now) page.new }
{
    let n = parts::word_at(payload, 0) as usize;
    if payload.len() < 4 + n {
        return page.put_text(b"malformed\n");
    }
    let behind = 4 + n;
    put_found(page, &payload[4..behind], &payload[behind..]);
}

fn put_shown_into(page: &mut Page, payload: &[u8], buffer: &mut [u8])
    requires { 5 ≤ length payload.now }
    ensures { Put page.old (shown_text payload.now buffer.old) page.new }
{
    let head = Output(image::byte_at(payload, 4));
    let mut shown = Page::new(&mut *buffer);
    heads::put_shown(&mut shown, &payload[5..], head);
    let n = shown.place;
    parts::put_buffer(page, n as u64, buffer);
}

pub fn put_shown(page: &mut Page, payload: &[u8])
    ensures { Put page.old (shown_line payload.now) page.new }
{
    if payload.len() < 5 {
        return page.put_text(b"malformed\n");
    }
    let room = parts::room_at(payload, 0);
    let mut space = parts::marks();
    put_shown_into(page, payload, &mut space[..room]);
}
