// The cells in a frame's records.
ghost use Rattle.std.specs.Prelude.{◌≡◌, length, ◌-◌, ◌≤◌};
ghost use Rattle.text.specs.Page.{Put};
ghost use Rattle.places.specs.Capture.{inputs_in};
ghost use Rattle.frames.specs.Reading.{sent_by, sent_from, rows_sent, from_header, column_of, as_cell, cell_in, cell_writes};

use fabric::Inputs;
use text::Page;

fn inputs_at(frame: &[u8], k: usize) -> Inputs
    ensures { result ≡ inputs_in frame.now k }
{
    records::inputs_from(places::record_at(frame, k))
}

// The first record in which some input sends an active bit, by which a waiting fabric would route; or the number of records.
fn header_record(frame: &[u8]) -> usize
    ensures { from_header (rows_sent frame.now 0) ≡ rows_sent frame.now result }
{
    let n = frame.len() / 5;
    for k in 0..n {
        let i = inputs_at(frame, k);
        if routing::routes(true, i.bytes) {
            return k;
        }
    }
    n
}

fn sent_at(frame: &[u8], k: usize, input: usize) -> u8
    ensures { result ≡ sent_by frame.now input k }
{
    let i = inputs_at(frame, k);
    image::byte_at(&i.bytes, input)
}

// The record behind the cell whose header would be in record `at`; `at` itself where there is no cell.
fn cell_end(frame: &[u8], at: usize, input: usize) -> usize
    ensures { (at ≤ result) × (as_cell (column_of input (rows_sent frame.now at)) ≡ sent_from frame.now input at (result - at)) }
{
    if sent_at(frame, at, input) % 2 != 1 {
        return at;
    }
    for k in (at..frame.len() / 5).rev() {
        if sent_at(frame, k, input) != 0 {
            return k + 1;
        }
    }
    at
}

fn put_sent(page: &mut Page, frame: &[u8], at: usize, end: usize, input: usize)
    ensures { Put page.old (sent_from frame.now input at (end - at)) page.new }
{
    for k in at..end {
        page.put_byte(sent_at(frame, k, input));
    }
}

// Writes an input's cell, if the buffer has room for all of it, and answers how many bytes the cell has. 0 bytes are no cell.
pub fn read_cell(out: &mut [u8], frame: &[u8], input: usize) -> usize
    ensures bytes { result ≡ length (cell_in frame.now input) }
    ensures writes { out.new ≡ cell_writes frame.now input out.old }
{
    let at = header_record(frame);
    let end = cell_end(frame, at, input);
    let n = end - at;
    if n <= out.len() {
        put_sent(&mut Page::new(out), frame, at, end, input);
    }
    n
}
