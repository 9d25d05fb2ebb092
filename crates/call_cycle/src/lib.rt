//! The single cycle, by the rules and by the gates, asked for by the bytes of a payload and answered by a line of text on a page (crate `text`).

#![tactic(auto)]

mod cycle;

pub use cycle::{put_cycle, put_gate_cycle};
