// One letter for each call.
ghost use Rattle.std.specs.Prelude.{◌≡◌};
ghost use Rattle.text.specs.Page.{Put};
ghost use Rattle.requests.specs.Letter.{too_long, later_line, line_of};

use capture::Rules;
use engine::Gates;
use text::Page;

// A buffer is asked for that is longer than there is room for.
pub(crate) fn too_long(letter: u8, payload: &[u8]) -> bool
    ensures { result ≡ too_long letter payload.now }
{
    let n = payload.len();
    let order = call_frames::asks_frame(payload);
    let first = parts::word_at(payload, 0);
    let behind_state = parts::word_at(payload, 25);
    let replays = matches!(letter, b'R' | b'G') && 29 <= n;
    let saves = letter == b'S' && n == 29;
    let writes = letter == b'W' && order;
    let reads = letter == b'K' && 8 <= n;
    let shows = letter == b'H' && 5 <= n;
    (replays || saves) && 65536 < behind_state || (writes || reads || shows) && 65536 < first
}

// The calls that came after the base.
#[tactic(auto, unfolding(crate::specs::Letter::later_line))]
fn put_later_line(page: &mut Page, letter: u8, payload: &[u8])
    ensures { Put page.old (later_line letter payload.now) page.new }
{
    match letter {
        b'W' => call_frames::put_write(page, payload),
        b'K' => call_frames::put_read(page, payload),
        b'N' => call_numerals::put_piece(page, payload),
        b'H' => call_numerals::put_shown(page, payload),
        _ => page.put_text(b"unknown\n"),
    }
}

#[tactic(auto, unfolding(crate::specs::Letter::line_of))]
pub(crate) fn put_line(page: &mut Page, letter: u8, payload: &[u8])
    ensures { Put page.old (line_of letter payload.now) page.new }
{
    match letter {
        b'C' => call_cycle::put_cycle(page, payload),
        b'D' => call_cycle::put_gate_cycle(page, payload),
        b'R' => call_replay::put_replay(&Rules, page, payload),
        b'G' => call_replay::put_replay(&Gates, page, payload),
        b'S' => call_replay::put_save(page, payload),
        b'T' => call_replay::put_take_up(page, payload),
        b'E' => call_gates::put_evaluate(page, payload),
        _ => put_later_line(page, letter, payload),
    }
}
