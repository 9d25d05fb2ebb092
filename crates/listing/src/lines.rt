// The heading and a line for each cycle.
ghost use Rattle.text.specs.Page.{Put};
ghost use Rattle.places.specs.Capture.{records};
ghost use Rattle.listing.specs.Listing.{heading, columns, line, lines_from, listing};

use text::Page;

fn put_columns(page: &mut Page, bytes: &[u8])
    ensures { Put page.old (columns bytes.now) page.new }
{
    for b in bytes {
        page.put_byte(b' ');
        page.put_pair(*b);
    }
}

// Cycle k with its answer record.
pub fn put_line(page: &mut Page, k: usize, answer: [u8; 5])
    ensures { Put page.old (line k answer) page.new }
{
    page.put_decimal(k as u64);
    put_columns(page, &answer);
    page.put_byte(b'\n');
}

fn put_lines(page: &mut Page, answers: &[u8])
    ensures { Put page.old (lines_from answers.now 0 (records answers.now)) page.new }
{
    for k in 0..answers.len() / 5 {
        put_line(page, k, places::record_at(answers, k));
    }
}

pub fn put_heading(page: &mut Page)
    ensures { Put page.old heading page.new }
{
    page.put_text(b"cycle ack h0 h1 h2 h3\n");
}

// The listing of the answers to all cycles from 0 on.
pub fn put_listing(page: &mut Page, answers: &[u8])
    ensures { Put page.old (listing answers.now) page.new }
{
    put_heading(page);
    put_lines(page, answers);
}
