// What is said of both engines' replays of one capture.
ghost use Rattle.std.specs.Prelude.{◌≡◌, is_none};
ghost use Rattle.text.specs.Page.{Put};
ghost use Rattle.states.specs.Refusal.{number_in};
ghost use Rattle.listing.specs.Listing.{listing};
ghost use Rattle.comparison.specs.Both.{told, place_in};
ghost use Rattle.verdict.specs.Verdict.{outcome_text, differ_text, verdict_text, stream_of};

use comparison::Both;
use input::Stream;
use states::Refusal;
use text::Page;

fn put_outcome(page: &mut Page, outcome: Result<(), Refusal>, answers: &[u8])
    ensures { Put page.old (outcome_text listing (number_in outcome) (place_in outcome) answers.now) page.new }
{
    match outcome {
        Ok(()) => listing::put_listing(page, answers),
        Err(why) => listing::put_refusal(page, why.number(), why.index()),
    }
}

fn put_difference(page: &mut Page, k: usize)
    ensures { Put page.old (differ_text k) page.new }
{
    page.put_text(b"engines differ at ");
    page.put_decimal(k as u64);
    page.put_byte(b'\n');
}

// Whether the two agree. `answers` are those of the plain engine.
pub fn put_verdict(page: &mut Page, b: Both, answers: &[u8]) -> bool
    ensures agreed { result ≡ is_none b.difference }
    ensures writes { Put page.old (verdict_text (told b) answers.now) page.new }
{
    match b.difference {
        None => {
            put_outcome(page, b.outcome, answers);
            true
        }
        Some(k) => {
            put_difference(page, k);
            false
        }
    }
}

// Where the text of a verdict goes.
pub fn stream(agreed: bool) -> Stream
    ensures { result ≡ stream_of agreed }
{
    if agreed {
        Stream::Output
    } else {
        Stream::Error
    }
}
