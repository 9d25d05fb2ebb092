// Taking a saved state up.
ghost use Rattle.std.specs.Prelude.{◌≡◌, ◌+◌, ◌/◌, ◌%◌, ◌*◌, ◌^◌, ◌<◌, length};
ghost use Rattle.routing.specs.Four.{four, bit_at};
ghost use Rattle.routing.specs.Port.{input};
ghost use Rattle.states.specs.Refusal.{number_in};
ghost use Rattle.saved.specs.Saved.{word_in, state_in, row_in, machine_in, take_up_refusal, taken_as, take_up_of};

use super::saving::SAVED_LEN;
use routing::Input;
use states::{Machine, Refusal, Refused, State};
use std::array;

fn shut_in(w: u16) -> [bool; 4]
    ensures { result ≡ four (λ o. bit_at (11 + o) w) }
{
    array::from_fn(|o| (w >> (11 + o)) % 2 == 1)
}

fn holders_in(w: u16) -> [Input; 4]
    ensures { result ≡ four (λ o. input (w / 2 ^ (3 + 2 * o) % 4)) }
{
    array::from_fn(|o| Input(((w >> (3 + 2 * o)) % 4) as u8))
}

fn state_in(w: u16) -> State
    ensures { result ≡ state_in w }
{
    State {
        waiting: w / 32768 % 2 == 1,
        shut: shut_in(w),
        holders: holders_in(w),
    }
}

fn row_in(b: &[u8], at: usize) -> [u8; 4]
    requires { at + 3 < length b.now }
    ensures { result ≡ row_in b.now at }
{
    array::from_fn(|i| b[at + i])
}

fn word_in(b: &[u8]) -> u16
    requires { 1 < length b.now }
    ensures { result ≡ word_in b.now }
{
    u16::from_be_bytes([b[0], b[1]])
}

fn check(b: &[u8]) -> Result<(), Refusal>
    ensures { number_in result ≡ take_up_refusal b.now }
{
    if b.len() != SAVED_LEN {
        return Err(Refusal::SavedLength);
    }
    let w = word_in(b);
    if w % 8 != 0 {
        return Err(Refusal::SavedZerosSet);
    }
    states::check(state_in(w))
}

fn taken_up(b: &[u8]) -> Machine
    requires { 17 < length b.now }
    ensures { result ≡ machine_in b.now }
{
    let state = state_in(word_in(b));
    let rows = [row_in(b, 2), row_in(b, 6), row_in(b, 10), row_in(b, 14)];
    Machine { state, rows }
}

// Takes a state up from 18 bytes; a refusal hands back the reset state.
pub fn take_up(b: &[u8]) -> Result<Machine, Refused>
    ensures { taken_as result ≡ take_up_of b.now }
{
    match check(b) {
        Ok(()) => Ok(taken_up(b)),
        Err(why) => Err(Refused {
            why,
            machine: Machine {
                state: states::reset_state(),
                rows: states::reset_rows(),
            },
        }),
    }
}
