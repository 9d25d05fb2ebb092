//! What a frame is to hold, and what of it is refused.
//!
//! A cell is lent as bytes, its header first and its body behind it; no bytes are no cell.

#![tactic(auto)]

mod plan;
mod refusal;

pub use plan::Plan;
pub use refusal::Refusal;
