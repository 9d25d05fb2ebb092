//! The wiring of the fabric by gates: what feeds each block of `blocks`, in the order in which the blocks are evaluated.

#![tactic(auto)]

mod wires;

pub use wires::{
    acknowledge_all, decode_all, filter_all, phase, select_all, shut_all, switch_all, turn_all,
};
