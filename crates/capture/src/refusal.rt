// What becomes of a replay, known before the first byte is written.
ghost use Rattle.std.specs.Prelude.{◌≡◌};
ghost use Rattle.states.specs.Refusal.{number_in};
ghost use Rattle.records.specs.Record.{spare_set};
ghost use Rattle.capture.specs.Refusal.{early_refusal, judged, judged_as};

use states::{Refusal, State};

const LIMIT: usize = 12288;

fn check_early(s: State, capture: &[u8], room: usize) -> Result<(), Refusal>
    ensures { number_in result ≡ early_refusal s capture.now room }
{
    states::check(s)?;
    if capture.len() % 5 != 0 {
        return Err(Refusal::CaptureCut);
    }
    if LIMIT < capture.len() / 5 {
        return Err(Refusal::TooManyRecords);
    }
    if room < capture.len() {
        return Err(Refusal::AnswersTooShort);
    }
    Ok(())
}

fn spare_set(b: u8) -> bool
    ensures { result ≡ spare_set b }
{
    b / 16 % 8 != 0
}

// Refusals 14, 7, 8, 1, 4, 2, 3, the first that applies, for an answer buffer of `room` bytes.
pub fn judge(s: State, capture: &[u8], room: usize) -> Result<(), Refusal>
    ensures { judged_as result ≡ judged s capture.now room }
{
    check_early(s, capture, room)?;
    for at in 0..capture.len() / 5 {
        if spare_set(capture[5 * at]) {
            return Err(Refusal::SpareBitSet { at });
        }
    }
    Ok(())
}
