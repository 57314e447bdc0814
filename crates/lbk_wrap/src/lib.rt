//! Lines of at most so many terminal columns, broken only where UAX #14 allows.
//!
//! A line takes segments of a text as long as all of them but the blanks at the end are within the columns. A segment
//! that no line has room for is cut between its grapheme clusters, unless it is to stay whole.
#![tactic(auto)]

mod filling;
pub mod laws;
mod layout;
mod measures;
mod open;
mod taking;
#[cfg(test)]
mod tests;
mod wrapping;

pub use filling::push_filled;
pub use layout::Layout;
pub use open::{Line, LineKind};
pub use wrapping::lines;
