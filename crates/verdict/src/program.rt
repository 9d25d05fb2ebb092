// What the program replay prints of an input, of which the start is kept and all is counted.
ghost use Rattle.std.specs.Prelude.{true, ◌≡◌, is_none};
ghost use Rattle.text.specs.Page.{Put};
ghost use Rattle.fabric.specs.Run.{reset_machine};
ghost use Rattle.capture.specs.Replay.{replay_writes};
ghost use Rattle.comparison.specs.Both.{both_of, kept};
ghost use Rattle.verdict.specs.Verdict.{verdict_text};
ghost use Rattle.verdict.specs.Printed.{printed};

use super::said;
use text::Page;

fn replay_into(capture: &[u8], plain: &mut [u8], gates: &mut [u8], page: &mut Page) -> bool
    ensures agreed { result ≡ is_none (both_of capture.now plain.old gates.old).difference }
    ensures writes { Put page.old (verdict_text (both_of capture.now plain.old gates.old) (replay_writes reset_machine capture.now plain.old)) page.new }
{
    let b = comparison::replay_both(capture, &mut *plain, gates);
    said::put_verdict(page, b, plain)
}

// `bytes` are what is kept of an input of `total` bytes. That the engines agree is proved of the code; what runs compares them all the same.
pub fn replay_by_both(bytes: &[u8], total: u64, page: &mut Page) -> bool
    ensures agreed { result ≡ true }
    ensures writes { Put page.old (printed (kept bytes.now total)) page.new }
{
    let capture = comparison::kept(bytes, total);
    let n = capture.len();
    let mut plain = [0; 61449];
    let mut gates = [0; 61449];
    replay_into(capture, &mut plain[..n], &mut gates[..n], page)
}
