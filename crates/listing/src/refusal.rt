// The refusal line, with its index where the number gives one, or with whatever index is handed in.
ghost use Rattle.std.specs.Prelude.{◌≡◌};
ghost use Rattle.text.specs.Page.{Put};
ghost use Rattle.states.specs.Refusal.{indexed};
ghost use Rattle.listing.specs.Refusal.{given, index_text, refusal_line, refusal_line_any_index};

use text::Page;

fn gives_index(number: u8) -> bool
    ensures { result ≡ indexed number }
{
    (number == 3) | (number == 11) | (number == 12)
}

fn given(number: u8, index: Option<usize>) -> Option<usize>
    ensures { result ≡ given number index }
{
    if gives_index(number) { index } else { None }
}

fn put_index(page: &mut Page, index: Option<usize>)
    ensures { Put page.old (index_text index) page.new }
{
    match index {
        Some(k) => {
            page.put_text(b" at ");
            page.put_decimal(k as u64);
        }
        None => {}
    }
}

// Beside any number an index is printed, if one is handed in; what a program prints goes by `put_refusal`.
pub fn put_refusal_any_index(page: &mut Page, number: u8, index: Option<usize>)
    ensures { Put page.old (refusal_line_any_index number index) page.new }
{
    page.put_text(b"refused ");
    page.put_decimal(u64::from(number));
    put_index(page, index);
    page.put_byte(b'\n');
}

// The number is what is printed: the refusals of several enums have such a line.
pub fn put_refusal(page: &mut Page, number: u8, index: Option<usize>)
    ensures { Put page.old (refusal_line number index) page.new }
{
    put_refusal_any_index(page, number, given(number, index));
}

#[cfg(test)]
mod tests {
    use super::*;

    #[test]
    fn the_index_of_a_number_that_gives_none(rt: HostRuntime) {
        let mut space = [0u8; 64];
        let mut page = Page::new(&mut space);
        put_refusal_any_index(&mut page, 4, Some(7));
        put_refusal_any_index(&mut page, 3, None);
        put_refusal(&mut page, 4, Some(7));
        put_refusal(&mut page, 3, Some(7));
        let want: &[u8] = b"refused 4 at 7\nrefused 3\nrefused 4\nrefused 3 at 7\n";
        assert_eq!(rt; page.text(), want);
    }
}
