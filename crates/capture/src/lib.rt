//! The replay of a capture: its refusals, and the run of its records by the rules or by another engine that leaves the same.

#![tactic(auto)]

mod engine;
mod refusal;
mod run;

pub use engine::{Engine, Rules};
pub use refusal::judge;
pub use run::replay;
