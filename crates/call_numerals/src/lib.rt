//! The piece of two texts and a head's bytes, asked for by the bytes of a payload and answered by a line of text on a page (crate `text`).

#![tactic(auto)]

mod calls;

pub use calls::{put_piece, put_shown};
