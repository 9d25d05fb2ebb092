//! The state of one Fairisle 4x4 fabric, reset, the rows of bytes beside it, and the refusals of a state that is handed in.
//!
//! The contracts speak of the definitions in `specs/`.

#![tactic(auto)]

mod refusal;
mod state;

pub use refusal::Refusal;
pub use state::{Machine, Refused, State, check, reset_rows, reset_state};
