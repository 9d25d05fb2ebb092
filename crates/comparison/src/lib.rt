//! One capture through both engines, compared in every answer byte, number, index and end state.
//!
//! That they agree is proved. The comparison is for what no proof covers: a fault of the compiled code or of the machine.

#![tactic(auto)]

mod agreement;
mod both;

pub use agreement::disagreement;
pub use both::{Both, kept, replay_both};
