//! Passages of a text: paragraphs, their segments and words, while only one paragraph is held.
//!
//! Segments end at line breaks (Unicode Standard Annex #14), and words are those of Annex #29.
//!
//! [`Breaks`] finds the breaks of a text in memory, a block at a time or one by one. It takes any source of cells, and
//! is fast with `CellPages` of the crate `lbk_rules`. A [`Segmenter`] reads bytes, and returns passage after passage;
//! [`lines`] writes one as `lbk segment` does.
#![tactic(auto)]

mod ahead;
mod breaks;
mod ends;
mod faults;
mod flags;
mod found;
mod front;
mod kept;
mod known;
pub mod laws;
pub mod lines;
mod near_kinds;
mod paragraph;
mod passage;
mod pieces;
mod raw_breaks;
mod reach;
mod segmenter;
mod segments;

pub use breaks::Breaks;
pub use faults::PassageFault;
pub use lbk_feed::LIMIT_MAX;
pub use lbk_rules::Break;
pub use passage::{Passage, PassageText, Piece, Segment};
pub use raw_breaks::RawBreaks;
pub use segmenter::Segmenter;
