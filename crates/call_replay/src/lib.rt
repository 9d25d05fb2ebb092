//! The replay by either engine, saving and taking up, asked for by the bytes of a payload and answered by a line of text on a page (crate `text`).

#![tactic(auto)]

mod replay;
mod state;

pub use replay::put_replay;
pub use state::{put_save, put_take_up};
