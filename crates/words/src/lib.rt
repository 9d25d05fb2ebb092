//! One gate word: whether it is a right word, whether it reads a net too early, and the value of its gate over the nets so far.

#![tactic(auto)]

mod word;

pub use word::{gate, late, net, wrong};
