// A cycle by gates.
ghost use Rattle.std.specs.Prelude.{◌≡◌};
ghost use Rattle.routing.specs.Four.{four};
ghost use Rattle.states.specs.State.{Held};
ghost use Rattle.fabric.specs.Cycle.{machine, acked, switch_after, moved_of, cycle_of};
ghost use Rattle.wiring.specs.Wiring.{gate_state, gate_acks, gate_switch};
ghost use Rattle.engine.specs.Cycle.{gate_step_of, gate_answer, without_report};

use capture::Engine;
use fabric::{Inputs, Moved};
use states::{Machine, Refused, State};

// The control part: 4 decodings, the phase, 4 filters, 4 shut flags, 4 turns.
fn next_state(s: State, headers: [u8; 4], start: bool) -> State
    ensures { result ≡ gate_state s headers start }
{
    let shut = s.shut;
    let holders = s.holders;
    let requests = wiring::decode_all(headers);
    let now = wiring::phase(s.waiting, start, headers);
    let remain = wiring::filter_all(requests);
    State {
        waiting: now.waiting,
        shut: wiring::shut_all(shut, start, now.routing, remain),
        holders: wiring::turn_all(remain, holders, now.routing),
    }
}

// What the data part makes: the acknowledgements to the inputs and the next switch bytes.
#[derive(Clone, Copy)]
struct Passed {
    acks: [bool; 4],
    switched: [u8; 4],
}

// The data part: 4 selections, 4 choices of acknowledgements, 32 choices of data bits.
fn pass_on(s: State, acks: [bool; 4], second: [u8; 4]) -> Passed
    ensures words { (result.acks ≡ gate_acks s acks) × (result.switched ≡ gate_switch s second) }
    ensures rules { Held s → (result.acks ≡ four (acked s acks)) × (result.switched ≡ four (switch_after s second)) }
{
    let shut = s.shut;
    let holders = s.holders;
    let lets = wiring::select_all(holders, shut);
    Passed {
        acks: wiring::acknowledge_all(acks, lets),
        switched: wiring::switch_all(second, lets),
    }
}

// Rules 1 to 7. Bytes that only move are moved: input bytes, first latches, second latches, switch bytes, head bytes.
fn step(s: State, rows: [[u8; 4]; 4], i: Inputs) -> Moved
    ensures words { result ≡ gate_step_of (machine s rows) i }
    ensures rules { Held s → result ≡ moved_of (machine s rows) i }
{
    let [first, second, switched, heads] = rows;
    let bytes = i.bytes;
    let state = next_state(s, second, i.frame);
    let Passed {
        acks,
        switched: chosen,
    } = pass_on(s, i.acks, second);
    let machine = Machine {
        state,
        rows: [bytes, first, chosen, switched],
    };
    Moved {
        acks,
        shown: heads,
        machine,
    }
}

// The gates as an engine. Beside the law of every engine its cycle is promised over the gate words, of every state, so that one that goes by the
// rules instead is refused.
#[derive(Clone, Copy)]
pub struct Gates;

impl Engine for Gates {
    fn step(&self, s: State, rows: [[u8; 4]; 4], i: Inputs) -> Moved
        ensures words { result ≡ gate_step_of (machine s rows) i }
        ensures rules { Held s → result ≡ moved_of (machine s rows) i }
    {
        step(s, rows, i)
    }
}

// Not one call with the plain single cycle, which answers a report too: what the two share is the three lines of a refusal.
// A single cycle: the gates where the state is accepted, otherwise its refusal with the state and the rows as given.
pub fn single_cycle(s: State, rows: [[u8; 4]; 4], i: Inputs) -> Result<Moved, Refused>
    ensures { gate_answer result ≡ without_report (cycle_of (machine s rows) i) }
{
    match states::check(s) {
        Ok(()) => Ok(step(s, rows, i)),
        Err(why) => Err(Refused {
            why,
            machine: Machine { state: s, rows },
        }),
    }
}
