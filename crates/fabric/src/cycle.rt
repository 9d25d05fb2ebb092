// Rules 1, 2, 5, 6 and 7, and a single cycle.
ghost use Rattle.std.specs.Prelude.{◌≡◌, ◌&&◌, ◌<◌};
ghost use Rattle.routing.specs.Four.{four};
ghost use Rattle.routing.specs.Route.{asked};
ghost use Rattle.states.specs.State.{shut_at, holder_of};
ghost use Rattle.fabric.specs.Cycle.{machine, passes, acked, holder_after, waiting_after, shut_after, state_after, switch_byte, switch_after, step_of, cycle_of, cycle_answer};

use routing::{Input, Output, Report};
use states::{Machine, Refused, State};
use std::array;

// The inputs of a cycle: frame start, four bytes, four output acknowledgements.
#[derive(Clone, Copy)]
pub struct Inputs {
    pub frame: bool,
    pub bytes: [u8; 4],
    pub acks: [bool; 4],
}

// What a cycle leaves: the acknowledgements to the inputs, the shown head bytes, and the machine at the start of the next cycle.
#[derive(Clone, Copy)]
pub struct Moved {
    pub acks: [bool; 4],
    pub shown: [u8; 4],
    pub machine: Machine,
}

// And what it reports.
#[derive(Clone, Copy)]
pub struct Cycled {
    pub report: Report,
    pub moved: Moved,
}

// Output o passes its acknowledgement on to input i. Neither here nor in `acked` is a test left out for another's answer: with a jump for each,
// mixed acknowledgements are replayed more slowly by a fifth.
fn passes(s: State, acks: [bool; 4], i: Input, o: usize) -> bool
    requires { o < 4 }
    ensures { result ≡ passes s acks i.0 o }
{
    !s.shut[o] & (s.holders[o].0 == i.0) & acks[o]
}

fn acked(s: State, acks: [bool; 4], i: Input) -> bool
    ensures { result ≡ acked s acks i.0 }
{
    // four in a row: over `any` the check stops at its limit
    passes(s, acks, i, 0) | passes(s, acks, i, 1) | passes(s, acks, i, 2) | passes(s, acks, i, 3)
}

fn acks_to(s: State, acks: [bool; 4]) -> [bool; 4]
    ensures { result ≡ four (acked s acks) }
{
    array::from_fn(|i| acked(s, acks, Input(i as u8)))
}

// Rule 4, for an output. Nobody is looked for where no routing happens.
fn holder_after(routing: bool, headers: [u8; 4], o: Output, holder: Input) -> Input
    ensures { result ≡ holder_after routing headers o.0 holder }
{
    if !routing {
        return holder;
    }
    if routing::asked(headers, o) {
        routing::winner(headers, o, holder)
    } else {
        holder
    }
}

fn waiting_after(frame_start: bool, routing: bool, waiting: bool) -> bool
    ensures { result ≡ waiting_after frame_start routing waiting }
{
    if frame_start {
        true
    } else if routing {
        false
    } else {
        waiting
    }
}

fn shut_after(frame_start: bool, opening: bool, shut: bool) -> bool
    ensures { result ≡ shut_after frame_start opening shut }
{
    if frame_start {
        true
    } else if opening {
        false
    } else {
        shut
    }
}

// A routing happened and the output was asked for.
fn opening(routing: bool, headers: [u8; 4], o: Output) -> bool
    ensures { result ≡ (routing && asked headers o.0) }
{
    if routing {
        routing::asked(headers, o)
    } else {
        false
    }
}

fn shut_flags_after(s: State, headers: [u8; 4], frame_start: bool, routing: bool) -> [bool; 4]
    ensures { result ≡ four (λ o. shut_after frame_start (routing && asked headers o) (shut_at s o)) }
{
    array::from_fn(|o| {
        let open = opening(routing, headers, Output(o as u8));
        shut_after(frame_start, open, s.shut[o])
    })
}

fn holders_after(s: State, headers: [u8; 4], routing: bool) -> [Input; 4]
    ensures { result ≡ four (λ o. holder_after routing headers o (holder_of s o)) }
{
    array::from_fn(|o| holder_after(routing, headers, Output(o as u8), s.holders[o]))
}

fn state_after(s: State, headers: [u8; 4], frame_start: bool) -> State
    ensures { result ≡ state_after s headers frame_start }
{
    let routing = routing::routes(s.waiting, headers);
    let shut = shut_flags_after(s, headers, frame_start, routing);
    let holders = holders_after(s, headers, routing);
    State {
        waiting: waiting_after(frame_start, routing, s.waiting),
        shut,
        holders,
    }
}

// There is no latch above 3: such a holder shows 0.
fn switch_byte(shut: bool, holder: Input, second: [u8; 4]) -> u8
    ensures { result ≡ switch_byte shut holder.0 second }
{
    if shut {
        return 0;
    }
    second.get(usize::from(holder.0)).copied().unwrap_or(0)
}

// Rule 7's next switch bytes.
fn switch_row(s: State, second: [u8; 4]) -> [u8; 4]
    ensures { result ≡ four (switch_after s second) }
{
    array::from_fn(|o| switch_byte(s.shut[o], s.holders[o], second))
}

// Rules 1 to 7, for any state and rows. The rows move on by one: input bytes, first latches, second latches, switch bytes, head bytes.
pub fn step(s: State, rows: [[u8; 4]; 4], i: Inputs) -> Cycled
    ensures { result ≡ step_of (machine s rows) i }
{
    let [first, second, switched, heads] = rows;
    let bytes = i.bytes;
    let state = state_after(s, second, i.frame);
    let machine = Machine {
        state,
        rows: [bytes, first, switch_row(s, second), switched],
    };
    let moved = Moved {
        acks: acks_to(s, i.acks),
        shown: heads,
        machine,
    };
    Cycled {
        report: routing::reported(s.waiting, s.holders, second),
        moved,
    }
}

// A single cycle: rules 1 to 7 where the state is accepted, otherwise its refusal with the state and the rows as given.
pub fn single_cycle(s: State, rows: [[u8; 4]; 4], i: Inputs) -> Result<Cycled, Refused>
    ensures { cycle_answer result ≡ cycle_of (machine s rows) i }
{
    match states::check(s) {
        Ok(()) => Ok(step(s, rows, i)),
        Err(why) => Err(Refused {
            why,
            machine: Machine { state: s, rows },
        }),
    }
}
