// What is said to an order: records, or a last line.
ghost use Rattle.std.specs.Prelude.{◌≡◌, length};
ghost use Rattle.text.specs.Page.{page, Wrote, Put};
ghost use Rattle.text.specs.Ascii.{ascii};
ghost use Rattle.plans.specs.Refused.{number_of};
ghost use Rattle.orders.specs.Answer.{at_frame, line_about, refused_text, answer_to};
ghost use Rattle.orders.specs.Said.{written_by, length_by};

use super::order;
use plans::Refusal;
use text::Page;

// The line after which no more orders are answered, by its length; it is empty where no order was left.
#[derive(Clone, Copy, PartialEq, Eq)]
pub struct LastLine {
    pub length: usize,
}

fn put_at(page: &mut Page, k: u64)
    ensures { Put page.old (at_frame k) page.new }
{
    page.put_text(b" at ");
    page.put_decimal(k);
    page.put_byte(b'\n');
}

fn put_refused(page: &mut Page, refusal: Refusal, k: u64)
    ensures { Put page.old (line_about (refused_text (number_of refusal)) k) page.new }
{
    page.put_text(b"refused ");
    page.put_decimal(u64::from(refusal.number()));
    put_at(page, k);
}

fn put_cut_short(page: &mut Page, k: u64)
    ensures { Put page.old (line_about (ascii "cut short") k) page.new }
{
    page.put_text(b"cut short");
    put_at(page, k);
}

// `order` is what could be read of the order for frame k; answers how many bytes the frame's records have.
pub fn answer(out: &mut [u8], order: &[u8], k: u64) -> Result<usize, LastLine>
    ensures written { written_by result ≡ (answer_to order.now k (length out.old)).written }
    ensures text { Wrote (page out.old 0) (answer_to order.now k (length out.old)).text (page out.new (length_by result)) }
{
    if order.is_empty() {
        return Err(LastLine { length: 0 });
    }
    if order.len() < order::order_size(order) {
        let mut page = Page::new(out);
        put_cut_short(&mut page, k);
        return Err(LastLine { length: page.place });
    }
    match order::write_order(&mut *out, order) {
        Ok(()) => Ok(order::plan_in(order).size()),
        Err(refusal) => {
            let mut page = Page::new(out);
            put_refused(&mut page, refusal, k);
            Err(LastLine { length: page.place })
        }
    }
}
