//! Texts in parts. The breaks of a text that arrives in pieces, cut at any byte or unit of UTF-16, by a stream that is
//! a value of plain fields. And where a text of any bytes or units may be cut into parts, so that the breaks of the
//! parts, joined, are those of the text. The library for C uses both.
#![tactic(auto)]

mod cutting;
mod feeding;
mod joining;
mod laws;
mod safe_cuts;
mod skimming;
mod stream;
mod stream_unit;
mod streaming;
mod taking;
mod utf16;
mod utf16_cuts;
mod utf8;

pub use joining::{joined_parts, only_bytes_near_a_cut};
pub use laws::bytes_that_could_go_on;
pub use safe_cuts::{cut, cut_before};
pub use stream::{Fed, Stream};
pub use stream_unit::StreamUnit;
pub use streaming::feed;
pub use utf16_cuts::{cut_before_utf16, cut_utf16};
