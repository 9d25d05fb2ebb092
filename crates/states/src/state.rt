// The state of the machine, reset, and the refusals of a state that is handed in.
ghost use Rattle.std.specs.Prelude.{◌≡◌, ◌<◌};
ghost use Rattle.states.specs.Refusal.{number_in};
ghost use Rattle.states.specs.State.{reset_state, reset_rows, holder_above, open_while_waiting, share_holder, held_twice, state_refusal};

use super::refusal::Refusal;
use routing::Input;

#[derive(Clone, Copy)]
pub struct State {
    pub waiting: bool,
    pub shut: [bool; 4],
    pub holders: [Input; 4],
}

// A state with the rows of bytes beside it: first latches, second latches, switch bytes, head bytes. So calls hand them back; they are handed
// in one beside the other, as document 01 has it.
#[derive(Clone, Copy)]
pub struct Machine {
    pub state: State,
    pub rows: [[u8; 4]; 4],
}

// What a refused call hands back: why, and a state and its rows.
#[derive(Clone, Copy)]
pub struct Refused {
    pub why: Refusal,
    pub machine: Machine,
}

pub fn reset_state() -> State
    ensures { result ≡ reset_state }
{
    State {
        waiting: false,
        shut: [true; 4],
        holders: [Input(0); 4],
    }
}

pub fn reset_rows() -> [[u8; 4]; 4]
    ensures { result ≡ reset_rows }
{
    [[0; 4]; 4]
}

fn holder_above(s: State) -> bool
    ensures { result ≡ holder_above s }
{
    s.holders.iter().any(|h| 3 < h.0)
}

fn open_while_waiting(s: State) -> bool
    ensures { result ≡ open_while_waiting s }
{
    s.waiting && s.shut.iter().any(|shut| !shut)
}

// Outputs a and b are both open and have one holder.
fn shares_holder(s: State, a: usize, b: usize) -> bool
    requires { (a < 4) × (b < 4) }
    ensures { result ≡ share_holder s a b }
{
    !s.shut[a] && !s.shut[b] && s.holders[a].0 == s.holders[b].0
}

fn held_twice(s: State) -> bool
    ensures { result ≡ held_twice s }
{
    // the six pairs one by one: over `any` in an `any` the check stops at its limit
    shares_holder(s, 0, 1)
        || shares_holder(s, 0, 2)
        || shares_holder(s, 0, 3)
        || shares_holder(s, 1, 2)
        || shares_holder(s, 1, 3)
        || shares_holder(s, 2, 3)
}

// 14, 7 or 8, the first that applies.
pub fn check(s: State) -> Result<(), Refusal>
    ensures { number_in result ≡ state_refusal s }
{
    if holder_above(s) {
        return Err(Refusal::HolderAbove);
    }
    if open_while_waiting(s) {
        return Err(Refusal::OpenWhileWaiting);
    }
    if held_twice(s) {
        return Err(Refusal::HeldTwice);
    }
    Ok(())
}
