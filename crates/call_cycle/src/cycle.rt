// C and D: a single cycle, by the rules and by the gates.
ghost use Rattle.std.specs.Prelude.{true, false, ◌≡◌};
ghost use Rattle.text.specs.Page.{Put};
ghost use Rattle.fabric.specs.Cycle.{cycle_answer};
ghost use Rattle.engine.specs.Cycle.{gate_answer};
ghost use Rattle.call_cycle.specs.Cycle.{outcome_text, next_text, outcomes_text, report_text, numbered, cycled_text, plain_text, gates_text, asked_in, cycle_line};

use fabric::{Cycled, Inputs, Moved};
use routing::{Outcome, Outcomes, Report};
use states::{Machine, Refused};
use text::Page;

fn put_outcome(page: &mut Page, o: Outcome)
    ensures { Put page.old (outcome_text o) page.new }
{
    match o {
        Outcome::Quiet => page.put_byte(b'-'),
        Outcome::Won {
            winner,
            turned_away,
        } => {
            page.put_decimal(u64::from(winner.0));
            page.put_byte(b':');
            page.put_decimal(u64::from(turned_away));
        }
    }
}

// An outcome that stands behind another.
fn put_next(page: &mut Page, o: Outcome)
    ensures { Put page.old (next_text o) page.new }
{
    page.put_byte(b',');
    put_outcome(page, o);
}

fn put_outcomes(page: &mut Page, os: Outcomes)
    ensures { Put page.old (outcomes_text os) page.new }
{
    put_outcome(page, os.output0);
    put_next(page, os.output1);
    put_next(page, os.output2);
    put_next(page, os.output3);
}

fn put_report(page: &mut Page, report: Report)
    ensures { Put page.old (report_text report) page.new }
{
    match report {
        Report::NoRouting => page.put_text(b"none"),
        Report::Routing(os) => put_outcomes(page, os),
    }
}

// Number, state and answer record, as they are printed: there 0 is done.
fn put_numbered(page: &mut Page, number: u8, m: Moved)
    ensures { Put page.old (cycled_text (numbered number m)) page.new }
{
    let answer = records::answer_bytes(m.acks, m.shown);
    parts::put_number(page, u64::from(number));
    parts::put_state(page, m.machine);
    page.put_byte(b' ');
    page.put_hex(&answer);
}

// A refusal shows the state as given, and zeros for answers.
fn put_moved(page: &mut Page, t: Result<Moved, Refused>)
    ensures { Put page.old (cycled_text (gate_answer t)) page.new }
{
    match t {
        Ok(moved) => put_numbered(page, 0, moved),
        Err(refused) => {
            let still = Moved {
                acks: [false; 4],
                shown: [0; 4],
                machine: refused.machine,
            };
            put_numbered(page, refused.why.number(), still);
        }
    }
}

fn put_plain(page: &mut Page, t: Result<Cycled, Refused>)
    ensures { Put page.old (plain_text (cycle_answer t)) page.new }
{
    put_moved(page, t.map(|cycled| cycled.moved));
    page.put_byte(b' ');
    put_report(page, t.map_or(Report::NoRouting, |cycled| cycled.report));
    page.put_byte(b'\n');
}

fn put_gates(page: &mut Page, t: Result<Moved, Refused>)
    ensures { Put page.old (gates_text (gate_answer t)) page.new }
{
    put_moved(page, t);
    page.put_byte(b'\n');
}

// What a cycle starts from, and what comes in.
#[derive(Clone, Copy)]
struct Asked {
    machine: Machine,
    inputs: Inputs,
}

// The record stands behind the 25 bytes of the state, where record 5 of a capture would.
fn asked_in(payload: &[u8]) -> Option<Asked>
    ensures { result ≡ asked_in payload.now }
{
    if payload.len() != 30 {
        return None;
    }
    let machine = Machine {
        state: image::state_from(payload),
        rows: image::rows_from(payload),
    };
    let inputs = records::inputs_from(places::record_at(payload, 5));
    Some(Asked { machine, inputs })
}

pub fn put_cycle(page: &mut Page, payload: &[u8])
    ensures { Put page.old (cycle_line payload.now false) page.new }
{
    match asked_in(payload) {
        Some(Asked { machine, inputs }) => put_plain(
            page,
            fabric::single_cycle(machine.state, machine.rows, inputs),
        ),
        None => page.put_text(b"malformed\n"),
    }
}

pub fn put_gate_cycle(page: &mut Page, payload: &[u8])
    ensures { Put page.old (cycle_line payload.now true) page.new }
{
    match asked_in(payload) {
        Some(Asked { machine, inputs }) => put_gates(
            page,
            engine::single_cycle(machine.state, machine.rows, inputs),
        ),
        None => page.put_text(b"malformed\n"),
    }
}
