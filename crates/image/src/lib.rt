//! A state and the rows beside it as 25 bytes, any state, accepted or not: waiting, four shut flags, four holders, then the rows of first
//! latches, second latches, switch bytes and head bytes. What is compared and shown of a state goes by this image; a state that is kept is
//! saved in 18 bytes by the crate `saved`.

#![tactic(auto)]

mod image;

pub use image::{byte_at, image_of, rows_from, state_from};
