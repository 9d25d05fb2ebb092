//! One Fairisle 4x4 fabric as a plain cycle machine: its cycle rules.
//!
//! The contracts speak of the definitions in `specs/`.

#![tactic(auto)]

mod cycle;

pub use cycle::{Cycled, Inputs, Moved, single_cycle, step};
