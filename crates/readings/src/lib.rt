//! The read-back of an input: the texts due at the four heads, compared with what the heads show in a replay of the capture behind them.

#![tactic(auto)]

mod answer;
mod lines;
mod refusal;

pub use answer::read_back;
