//! The evaluation of gate words. A netlist is data: a list of words, each of which makes one net.
//!
//! The contracts speak of the definitions in `specs/`.

#![tactic(auto)]

mod evaluator;
mod refusal;

pub use evaluator::{evaluate, value};
pub use refusal::Refusal;
