//! What lines about calls are made of: a state, bytes and numbers put onto a page, and numbers of several bytes.

#![tactic(auto)]

mod parts;

pub use parts::{long_at, marks, put_buffer, put_bytes, put_number, put_state, room_at, word_at};
