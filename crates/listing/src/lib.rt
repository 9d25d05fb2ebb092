//! The text of a replay: the listing, or the refusal line.
//!
//! Every call puts its text onto a page (crate `text`).

#![tactic(auto)]

mod lines;
mod refusal;

pub use lines::{put_heading, put_line, put_listing};
pub use refusal::{put_refusal, put_refusal_any_index};
