//! A request is a letter, a payload length of 4 bytes, high byte first, and the payload; its reply is a line of text.

#![tactic(auto)]

mod letter;
mod reply;

pub use reply::{payload_length, put_reply};
