// S and T: saving and taking up.
ghost use Rattle.text.specs.Page.{Put};
ghost use Rattle.saved.specs.Saved.{taken_as};
ghost use Rattle.call_replay.specs.State.{save_text, save_line, taken_up_text, take_up_line};

use states::{Machine, Refused};
use text::Page;

fn put_save_into(page: &mut Page, payload: &[u8], buffer: &mut [u8])
    ensures { Put page.old (save_text payload.now buffer.old) page.new }
{
    let s = image::state_from(payload);
    let rows = image::rows_from(payload);
    let refusal = saved::save(s, rows, buffer).err();
    let number = refusal.map_or(0, |refusal| refusal.number());
    parts::put_buffer(page, u64::from(number), buffer);
}

#[tactic(auto, unfolding(crate::specs::State::save_line))]
pub fn put_save(page: &mut Page, payload: &[u8])
    ensures { Put page.old (save_line payload.now) page.new }
{
    if payload.len() != 29 {
        return page.put_text(b"malformed\n");
    }
    let room = parts::room_at(payload, 25);
    let mut space = parts::marks();
    put_save_into(page, payload, &mut space[..room]);
}

// The number as it is printed: there 0 is done.
fn put_machine(page: &mut Page, number: u8, m: Machine)
    ensures { Put page.old (taken_up_text (record { number = number; machine = m })) page.new }
{
    parts::put_number(page, u64::from(number));
    parts::put_state(page, m);
    page.put_byte(b'\n');
}

fn put_taken_up(page: &mut Page, t: Result<Machine, Refused>)
    ensures { Put page.old (taken_up_text (taken_as t)) page.new }
{
    match t {
        Ok(machine) => put_machine(page, 0, machine),
        Err(Refused { why, machine }) => put_machine(page, why.number(), machine),
    }
}

pub fn put_take_up(page: &mut Page, payload: &[u8])
    ensures { Put page.old (take_up_line payload.now) page.new }
{
    put_taken_up(page, saved::take_up(payload));
}
