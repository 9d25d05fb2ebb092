// Rules 3 and 4: the routing and its report.
ghost use Rattle.std.specs.Prelude.{◌≡◌, ◌<◌};
ghost use Rattle.routing.specs.Four.{mask};
ghost use Rattle.routing.specs.Port.{input};
ghost use Rattle.routing.specs.Route.{asked, remains, winner, routes, decided, outcomes, reported};

use super::port::{Input, Output};
use super::{header, turn};

// No `Option` and no array, here and in the next two: document 01 names the form, an enum for each output, in four named fields of a struct
// that the report's enum carries.
#[derive(Clone, Copy)]
pub enum Outcome {
    Quiet,
    Won { winner: Input, turned_away: u8 },
}

#[derive(Clone, Copy)]
pub struct Outcomes {
    pub output0: Outcome,
    pub output1: Outcome,
    pub output2: Outcome,
    pub output3: Outcome,
}

#[derive(Clone, Copy)]
pub enum Report {
    NoRouting,
    Routing(Outcomes),
}

// The askers of an output that are not set aside, as a mask.
fn remaining(headers: [u8; 4], o: Output) -> u8
    ensures { (result ≡ mask (remains headers o.0)) × (result < 16) }
{
    let high = header::high_askers(headers, o);
    if high == 0 {
        header::askers(headers, o)
    } else {
        high
    }
}

// Rule 4's new holder of an output that is asked for.
pub fn winner(headers: [u8; 4], o: Output, holder: Input) -> Input
    ensures { result ≡ input (winner headers o.0 holder.0) }
{
    turn::in_turn(remaining(headers, o), holder)
}

// Rule 3: whether a routing happens.
pub fn routes(waiting: bool, headers: [u8; 4]) -> bool
    ensures { result ≡ routes waiting headers }
{
    waiting & header::some_active(headers)
}

// Whether somebody asks for an output.
pub fn asked(headers: [u8; 4], o: Output) -> bool
    ensures { result ≡ asked headers o.0 }
{
    header::askers(headers, o) != 0
}

// What a routing decides for an output: the ones of the askers' mask, less the winner, are turned away.
fn decided(headers: [u8; 4], o: Output, holder: Input) -> Outcome
    ensures { result ≡ decided headers o.0 holder.0 }
{
    let all = header::askers(headers, o);
    if all == 0 {
        return Outcome::Quiet;
    }
    Outcome::Won {
        winner: winner(headers, o, holder),
        turned_away: (all.count_ones() - 1) as u8,
    }
}

fn outcomes_of(holders: [Input; 4], headers: [u8; 4]) -> Outcomes
    ensures { result ≡ outcomes holders headers }
{
    Outcomes {
        output0: decided(headers, Output(0), holders[0]),
        output1: decided(headers, Output(1), holders[1]),
        output2: decided(headers, Output(2), holders[2]),
        output3: decided(headers, Output(3), holders[3]),
    }
}

// The report of a cycle with these headers, from the phase and the old holders.
pub fn reported(waiting: bool, holders: [Input; 4], headers: [u8; 4]) -> Report
    ensures { result ≡ reported waiting holders headers }
{
    if routes(waiting, headers) {
        Report::Routing(outcomes_of(holders, headers))
    } else {
        Report::NoRouting
    }
}
