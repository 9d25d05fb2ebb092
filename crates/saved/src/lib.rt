//! The saved state, 18 bytes: saving, and taking up.

#![tactic(auto)]

mod saving;
mod taking_up;

pub use saving::save;
pub use taking_up::take_up;
