// A capture through both engines from reset, and the bytes that stand for one of any size.
ghost use Rattle.std.specs.Prelude.{◌≡◌, ◌≤◌, length};
ghost use Rattle.fabric.specs.Run.{reset_machine};
ghost use Rattle.capture.specs.Replay.{replay_writes};
ghost use Rattle.comparison.specs.Both.{told, both_of, kept_length, kept};

use super::agreement;
use capture::Rules;
use engine::Gates;
use states::Refusal;

// What the cycle rules make of a capture, and where the gates differ.
#[derive(Clone, Copy)]
pub struct Both {
    pub outcome: Result<(), Refusal>,
    pub difference: Option<usize>,
}

// By the rules into `plain`, by the gates into `gates`.
pub fn replay_both(capture: &[u8], plain: &mut [u8], gates: &mut [u8]) -> Both
    ensures both { told result ≡ both_of capture.now plain.old gates.old }
    ensures plain { plain.new ≡ replay_writes reset_machine capture.now plain.old }
    ensures gates { gates.new ≡ replay_writes reset_machine capture.now gates.old }
{
    let s = states::reset_state();
    let rows = states::reset_rows();
    let p = capture::replay(&Rules, s, rows, capture, &mut *plain);
    let g = capture::replay(&Gates, s, rows, capture, &mut *gates);
    let difference = agreement::disagreement(p, g, plain, gates);
    Both {
        outcome: p.map(|_| ()).map_err(|r| r.why),
        difference,
    }
}

// How many bytes stand for a capture of `total` bytes: one that is too long for any replay keeps the bytes that it leaves over.
fn kept_length(total: u64) -> usize
    ensures { (result ≡ kept_length total) × (result ≤ 61449) }
{
    if 61449 < total {
        61445 + (total % 5) as usize
    } else {
        total as usize
    }
}

// Of the first bytes of a capture of `total` bytes, those that stand for all of it.
pub fn kept(bytes: &[u8], total: u64) -> &[u8]
    ensures { (result.now ≡ kept bytes.now total) × (length result.now ≤ 61449) }
{
    text::part(bytes, 0, kept_length(total))
}
