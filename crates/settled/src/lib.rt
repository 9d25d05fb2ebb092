//! What is still on its way to a head: bytes inside the fabric that it will show if nothing more is sent.
//!
//! The contracts speak of the definitions in `specs/`.

#![tactic(auto)]

mod ahead;

pub use ahead::on_its_way;
