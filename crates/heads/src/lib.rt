//! What a head has shown: its bytes collected out of answer records, zeros dropped.

#![tactic(auto)]

mod shown;

pub use shown::put_shown;
