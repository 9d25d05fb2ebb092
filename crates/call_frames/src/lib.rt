//! The writer and the reader of frames, asked for by the bytes of a payload and answered by a line of text on a page (crate `text`).

#![tactic(auto)]

mod calls;

pub use calls::{asks_frame, put_read, put_write};
