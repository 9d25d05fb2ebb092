// R and G: the replay, by the rules and by the gates. The answer buffer holds A5 throughout before the call.
ghost use Rattle.std.specs.Prelude.{◌≤◌, length};
ghost use Rattle.text.specs.Page.{Put};
ghost use Rattle.capture.specs.Replay.{handed_back, replayed};
ghost use Rattle.call_replay.specs.Replay.{replayed_text, replay_text, replay_line};

use capture::Engine;
use states::{Machine, Refused};
use text::Page;

// Number and index as they are printed: there 0 is done.
fn put_handed_back(page: &mut Page, number: u8, index: usize, m: Machine, buffer: &[u8])
    ensures { Put page.old (replayed_text (handed_back number index m) buffer.now) page.new }
{
    parts::put_number(page, u64::from(number));
    parts::put_number(page, index as u64);
    parts::put_state(page, m);
    page.put_byte(b' ');
    parts::put_bytes(page, buffer);
    page.put_byte(b'\n');
}

fn put_replayed(page: &mut Page, t: Result<Machine, Refused>, buffer: &[u8])
    ensures { Put page.old (replayed_text (replayed t) buffer.now) page.new }
{
    match t {
        Ok(machine) => put_handed_back(page, 0, 0, machine, buffer),
        Err(refused) => {
            let index = refused.why.index().unwrap_or(0);
            put_handed_back(page, refused.why.number(), index, refused.machine, buffer);
        }
    }
}

fn put_replay_into<E: Engine>(engine: &E, page: &mut Page, payload: &[u8], buffer: &mut [u8])
    requires { 29 ≤ length payload.now }
    ensures { Put page.old (replay_text payload.now buffer.old) page.new }
{
    let s = image::state_from(payload);
    let rows = image::rows_from(payload);
    let t = capture::replay(engine, s, rows, &payload[29..], buffer);
    put_replayed(page, t, buffer);
}

// All engines leave the same, so that one definition serves both letters.
#[tactic(auto, unfolding(crate::specs::Replay::replay_line))]
pub fn put_replay<E: Engine>(engine: &E, page: &mut Page, payload: &[u8])
    ensures { Put page.old (replay_line payload.now) page.new }
{
    if payload.len() < 29 {
        return page.put_text(b"malformed\n");
    }
    let room = parts::room_at(payload, 25);
    let mut space = parts::marks();
    put_replay_into(engine, page, payload, &mut space[..room]);
}
