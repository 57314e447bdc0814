//! The words of a text: its parts between word boundaries (UAX #29, section 4) that have a letter or a number.
//!
//! The text may be any bytes. [`fill`] goes over it from any byte on, with no memory but the caller's block.
#![tactic(auto)]

mod blocks;
mod calls;
mod decoding;
mod ends;
mod filling;
mod kind_table;
mod kinds;
pub mod laws;
mod letter_table;
mod letters;
mod near;
mod parts;
mod scalars;
mod step_table;
mod steps;
mod tries;
mod word;
mod zeros;

pub use calls::{WordState, lbk_words};
pub use ends::{ends_from, fill_parts};
pub use filling::fill;
pub use letters::{Letters, PartSlot};
pub use near::NearScalars;
pub use word::{Filled, Word};
