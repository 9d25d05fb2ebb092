// Four quiet cycles ahead: what is inside the fabric has been shown by then, or never will be.
ghost use Rattle.std.specs.Prelude.{◌≡◌, ◌<◌};
ghost use Rattle.routing.specs.Four.{four};
ghost use Rattle.fabric.specs.Cycle.{machine, moved_of};
ghost use Rattle.settled.specs.Ahead.{quiet_cycle, some_shown, on_its_way};

use fabric::{Inputs, Moved};
use states::{Machine, State};
use std::array;

fn quiet_cycle() -> Inputs
    ensures { result ≡ quiet_cycle }
{
    Inputs {
        frame: false,
        bytes: [0; 4],
        acks: [false; 4],
    }
}

// A quiet cycle of a machine.
fn next(m: Machine) -> Moved
    ensures { result ≡ moved_of m quiet_cycle }
{
    fabric::step(m.state, m.rows, quiet_cycle()).moved
}

// Heads at which one of four rows has a byte that is not zero.
fn some_shown(a: [u8; 4], b: [u8; 4], c: [u8; 4], d: [u8; 4]) -> [bool; 4]
    ensures { result ≡ four (some_shown a b c d) }
{
    array::from_fn(
        |h|
            requires { h < 4 }
            ensures { result ≡ some_shown a b c d h }
        { !(a[h] == 0) || !(b[h] == 0) || !(c[h] == 0) || !(d[h] == 0) },
    )
}

// For heads 0..3, whether something is on its way there. It runs the cycle rules on, so it stays right where a rule changes.
pub fn on_its_way(s: State, rows: [[u8; 4]; 4]) -> [bool; 4]
    ensures { result ≡ four (on_its_way (machine s rows)) }
{
    let t0 = next(Machine { state: s, rows });
    let t1 = next(t0.machine);
    let t2 = next(t1.machine);
    let t3 = next(t2.machine);
    some_shown(t0.shown, t1.shown, t2.shown, t3.shown)
}
