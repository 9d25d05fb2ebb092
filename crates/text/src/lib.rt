//! Bytes as text: what goes onto a page, numbers in digits, a part of some bytes, and the first difference of two texts.
//!
//! The contracts speak of the definitions in `specs/`.

#![tactic(auto)]

mod bytes;
mod difference;
mod digits;
mod page;

pub use bytes::part;
pub use difference::first_difference;
pub use page::Page;
