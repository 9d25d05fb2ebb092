// What does a cycle of a replay: the rules, or whatever leaves the same.
ghost use Rattle.std.specs.Prelude.{◌≡◌};
ghost use Rattle.states.specs.State.{Held};
ghost use Rattle.fabric.specs.Cycle.{machine, moved_of};

use fabric::{Inputs, Moved};
use states::State;

// A cycle of a state whose holders are inputs' numbers leaves what the rules say.
pub trait Engine {
    fn step(&self, s: State, rows: [[u8; 4]; 4], i: Inputs) -> Moved
        ensures { Held s → result ≡ moved_of (machine s rows) i };
}

// The cycle rules themselves.
#[derive(Clone, Copy)]
pub struct Rules;

impl Engine for Rules {
    fn step(&self, s: State, rows: [[u8; 4]; 4], i: Inputs) -> Moved {
        fabric::step(s, rows, i).moved
    }
}
