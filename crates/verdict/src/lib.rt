//! What is printed of one capture through both engines: the listing or the refusal line where the two agree, otherwise where they differ.

#![tactic(auto)]

mod program;
mod said;

pub use program::replay_by_both;
pub use said::{put_verdict, stream};
