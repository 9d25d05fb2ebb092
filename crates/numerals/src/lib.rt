//! The numeral read-back of two texts, the one that a station sent and the one that a head showed: where they begin to differ, the numeral around that
//! place, and the line that is said of it. The first difference is that of `text`, handed on.

#![tactic(auto)]

mod line;
mod numeral;
mod part;

pub use line::put_line;
pub use numeral::is_numeral;
pub use part::piece;
pub use text::first_difference;
