//! The fabric by gates: every block of `blocks` is evaluated in every cycle, in the same order and with the same wiring, and every new phase,
//! shut flag, holder bit, switch bit and acknowledgement is a gate's net. The plain machine of `fabric` stands below, and the contracts here are
//! equations with its definitions.

#![tactic(auto)]

mod cycle;

pub use cycle::{Gates, single_cycle};
