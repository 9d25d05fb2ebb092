//! Orders for frames, as the program `write_frame` reads them, and what is said to them.

#![tactic(auto)]

mod order;
mod words;

pub use order::{order_size, write_order};
pub use words::{LastLine, answer};
