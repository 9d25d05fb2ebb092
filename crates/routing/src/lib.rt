//! Who asks for an output and who gets it: the header byte, the turn, rules 3 and 4, and the report.
//!
//! The contracts speak of the definitions in `specs/`.

#![tactic(auto)]

mod bits;
mod header;
mod port;
mod route;
mod turn;

pub use bits::mask;
pub use port::{Input, Output};
pub use route::{Outcome, Outcomes, Report, asked, reported, routes, winner};
