// A frame's records, written at the start of a lent buffer.
ghost use Rattle.std.specs.Prelude.{◌≡◌, length};
ghost use Rattle.text.specs.Page.{Put};
ghost use Rattle.records.specs.Record.{record_of};
ghost use Rattle.plans.specs.Plan.{sent_of, inputs_of};
ghost use Rattle.plans.specs.Meant.{meant};
ghost use Rattle.plans.specs.Refusal.{write_refusal};
ghost use Rattle.plans.specs.Refused.{refused_as};
ghost use Rattle.frames.specs.Writing.{frame_records, frame_writes};

use fabric::Inputs;
use plans::{Plan, Refusal};
use text::Page;

// What an input with this cell sends in cycle k, with the headers in cycle `first`.
fn sent(first: usize, cell: &[u8], k: usize) -> u8
    ensures { result ≡ sent_of first cell.now k }
{
    k.checked_sub(first).map_or(0, |j| image::byte_at(cell, j))
}

fn record_in(plan: &Plan, k: usize) -> [u8; 5]
    ensures { result ≡ record_of (inputs_of (meant plan.now) k) }
{
    let first = usize::from(plan.gap) + 1;
    records::record_of(Inputs {
        frame: k == 0,
        bytes: plan.cells.map(|cell| sent(first, cell, k)),
        acks: plan.acks,
    })
}

fn put_records(page: &mut Page, plan: &Plan)
    ensures { Put page.old (frame_records (meant plan.now)) page.new }
{
    for k in 0..usize::from(plan.cycles) {
        page.put_text(&record_in(plan, k));
    }
}

// Writes the records of one frame, 5 bytes for each of its cycles; or refuses and writes nothing.
pub fn write_frame(out: &mut [u8], plan: &Plan) -> Result<(), Refusal>
    ensures number { refused_as result ≡ write_refusal (meant plan.now) (length out.old) }
    ensures writes { out.new ≡ frame_writes (meant plan.now) out.old }
{
    plan.check(out.len())?;
    put_records(&mut Page::new(out), plan);
    Ok(())
}
