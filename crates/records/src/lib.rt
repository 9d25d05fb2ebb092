//! The packed records, 5 bytes each: a capture record brings a cycle's inputs, an answer record takes its answer.

#![tactic(auto)]

mod record;

pub use record::{Answer, answer_bytes, answer_from, inputs_from, record_of};
