//! Frames as capture records: one well-formed frame written from its cells, and the cells of a frame read back.
//!
//! A cell is lent as bytes, its header first and its body behind it; no bytes are no cell.

#![tactic(auto)]

mod reading;
mod writing;

pub use reading::read_cell;
pub use writing::write_frame;
