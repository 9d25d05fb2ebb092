//! The evaluator, asked for by the bytes of a payload and answered by a line of text on a page (crate `text`).

#![tactic(auto)]

mod evaluate;

pub use evaluate::put_evaluate;
