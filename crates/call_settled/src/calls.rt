// O: to which heads something is on its way.
ghost use Rattle.std.specs.Prelude.{◌≡◌};
ghost use Rattle.text.specs.Page.{Put};
ghost use Rattle.call_settled.specs.Calls.{digit_for, heads_text, ahead_line};

use text::Page;

fn digit_for(on: bool) -> u8
    ensures { result ≡ digit_for on }
{
    b'0' + u8::from(on)
}

fn put_heads(page: &mut Page, heads: [bool; 4])
    ensures { Put page.old (heads_text heads) page.new }
{
    page.put_text(&heads.map(digit_for));
    page.put_byte(b'\n');
}

#[tactic(auto, unfolding(crate::specs::Calls::ahead_line))]
pub fn put_ahead(page: &mut Page, payload: &[u8])
    ensures { Put page.old (ahead_line payload.now) page.new }
{
    if payload.len() != 25 {
        return page.put_text(b"malformed\n");
    }
    let s = image::state_from(payload);
    let rows = image::rows_from(payload);
    put_heads(page, settled::on_its_way(s, rows));
}
