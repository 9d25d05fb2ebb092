//! What is on its way to the heads, asked for by the bytes of a payload and answered by a line of text on a page (crate `text`).

#![tactic(auto)]

mod calls;

pub use calls::put_ahead;
