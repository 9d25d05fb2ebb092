// W and K: a frame written, and a cell read.
ghost use Rattle.std.specs.Prelude.{◌≡◌, ◌≤◌, length};
ghost use Rattle.text.specs.Page.{Put};
ghost use Rattle.call_frames.specs.Calls.{asks_frame, write_text, write_line, read_text, read_line};

use text::Page;

// Whether a payload has one order behind its buffer length, and nothing behind that.
pub fn asks_frame(payload: &[u8]) -> bool
    ensures { result ≡ asks_frame payload.now }
{
    payload
        .get(4..)
        .is_some_and(|order| orders::order_size(order) == order.len())
}

fn put_write_into(page: &mut Page, payload: &[u8], buffer: &mut [u8])
    requires { 4 ≤ length payload.now }
    ensures { Put page.old (write_text payload.now buffer.old) page.new }
{
    let refusal = orders::write_order(&mut *buffer, &payload[4..]).err();
    let number = refusal.map_or(0, |refusal| refusal.number());
    parts::put_buffer(page, u64::from(number), buffer);
}

pub fn put_write(page: &mut Page, payload: &[u8])
    ensures { Put page.old (write_line payload.now) page.new }
{
    if !asks_frame(payload) {
        page.put_text(b"malformed\n");
        return;
    }
    let room = parts::room_at(payload, 0);
    let mut space = parts::marks();
    put_write_into(page, payload, &mut space[..room]);
}

fn put_read_into(page: &mut Page, payload: &[u8], buffer: &mut [u8])
    requires { 8 ≤ length payload.now }
    ensures { Put page.old (read_text payload.now buffer.old) page.new }
{
    let input = parts::word_at(payload, 4) as usize;
    let n = frames::read_cell(&mut *buffer, &payload[8..], input);
    parts::put_buffer(page, n as u64, buffer);
}

pub fn put_read(page: &mut Page, payload: &[u8])
    ensures { Put page.old (read_line payload.now) page.new }
{
    if payload.len() < 8 {
        page.put_text(b"malformed\n");
        return;
    }
    let room = parts::room_at(payload, 0);
    let mut space = parts::marks();
    put_read_into(page, payload, &mut space[..room]);
}
