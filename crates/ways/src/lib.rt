//! The blocks that make a way from an input to a head: turn, shut flag, one data bit's choice, and who is let through. For each a constant table of
//! gate words, and its evaluation over its block inputs. How a table is written is said in `blocks`.

#![tactic(auto)]

mod choose;
mod select;
mod shut;
mod turn;

pub use choose::chosen;
pub use select::selected;
pub use shut::shut_next;
pub use turn::{Holder, number_of, turned};
