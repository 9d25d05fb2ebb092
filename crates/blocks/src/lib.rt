//! The blocks that find who asks: decoding, priority filter and phase. For each a constant table of gate words, and its evaluation over its block
//! inputs. The other four stand in `ways`.
//!
//! In a table the number before a net's name is its place; the nets below the first are the block inputs. `INV` is an inverter, `AO` is kind 8:
//! first AND second, OR third AND fourth. A name that ends in `B` is the net of that name inverted.

#![tactic(auto)]

mod decode;
mod filter;
mod line;
mod phase;

pub use decode::{Requests, decoded};
pub use filter::filtered;
pub use line::{four_nets, lines, nets};
pub use phase::{Timing, phased};
