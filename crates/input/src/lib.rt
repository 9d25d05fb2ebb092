//! Standard input, read to its end, and the two standard streams that are written. Reads may be short; one that fails is told apart from the end of
//! the input, so that nothing is answered for an input of which a part is missing.
//!
//! What is read is told of any reader whose type says what it has left. No contract can say what standard input holds, or what a stream takes.

#![tactic(auto)]

mod standard;
mod streams;

pub use standard::{CutOff, fill, take_in};
pub use streams::{Stream, write_all};
