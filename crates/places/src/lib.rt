//! The places of a capture's records, and of the answers to them: record k of bytes, and an answer record written at place k of a lent buffer.

#![tactic(auto)]

mod record;

pub use record::{put_answer, record_at};
