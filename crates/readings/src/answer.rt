// What is printed of an input, of which the start is kept and all is counted.
ghost use Rattle.std.specs.Prelude.{true, ◌≡◌, ◌≤◌, length, take, is_none, is_err, IfOk};
ghost use Rattle.text.specs.Page.{Put};
ghost use Rattle.fabric.specs.Run.{reset_machine};
ghost use Rattle.capture.specs.Replay.{replay_writes};
ghost use Rattle.comparison.specs.Both.{both_of};
ghost use Rattle.verdict.specs.Verdict.{verdict_of};
ghost use Rattle.due.specs.Texts.{ends_inside};
ghost use Rattle.readings.specs.Lines.{four_lines};
ghost use Rattle.readings.specs.ReadBack.{capture_kept, read_kept};

use super::lines;
use super::refusal::Refusal;
use text::Page;

fn read_into(
    input: &[u8],
    capture: &[u8],
    plain: &mut [u8],
    gates: &mut [u8],
    page: &mut Page,
) -> bool
    requires { length plain.old ≤ 61449 }
    ensures agreed { result ≡ is_none (both_of capture.now plain.old gates.old).difference }
    ensures writes { Put page.old (verdict_of (four_lines input.now) (both_of capture.now plain.old gates.old) (replay_writes reset_machine capture.now plain.old)) page.new }
{
    let b = comparison::replay_both(capture, &mut *plain, gates);
    match (b.outcome, b.difference) {
        (Ok(()), None) => {
            lines::put_lines(page, input, plain);
            true
        }
        _ => verdict::put_verdict(page, b, plain),
    }
}

// The bytes that stand for the capture in an input of `total` bytes, of which `bytes` are the first; refused where they end inside the texts.
fn capture_kept(bytes: &[u8], total: u64) -> Result<&[u8], Refusal>
    ensures refused { is_err result ≡ ends_inside bytes.now }
    ensures kept { IfOk result (λ capture. (capture.now ≡ capture_kept bytes.now total) × (length capture.now ≤ 61449)) }
{
    if due::ends_inside(bytes) {
        return Err(Refusal::CutShort);
    }
    let rest = due::capture_in(bytes);
    let texts = bytes.len().saturating_sub(rest.len());
    Ok(comparison::kept(rest, total.saturating_sub(texts as u64)))
}

fn read_start(input: &[u8], total: u64, page: &mut Page) -> bool
    ensures agreed { result ≡ true }
    ensures writes { Put page.old (read_kept input.now total) page.new }
{
    match capture_kept(input, total) {
        Err(why) => {
            listing::put_refusal(page, why.number(), None);
            true
        }
        Ok(capture) => {
            let n = capture.len();
            let mut plain = [0; 61449];
            let mut gates = [0; 61449];
            read_into(input, capture, &mut plain[..n], &mut gates[..n], page)
        }
    }
}

// An input of `total` bytes stands at the start of `bytes`, or as much of it as has room there. It answers whether the engines agree.
pub fn read_back(bytes: &[u8], total: u64, page: &mut Page) -> bool
    ensures agreed { result ≡ true }
    ensures writes { Put page.old (read_kept (take total bytes.now) total) page.new }
{
    read_start(text::part(bytes, 0, total as usize), total, page)
}
