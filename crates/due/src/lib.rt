//! The input of a read-back: the texts due at heads 0..3, and the capture behind them.

#![tactic(auto)]

mod texts;

pub use texts::{capture_in, ends_inside, text_due};
