//! The breaks of bytes in memory: fills a block of breaks from an offset of the text on, by the steps of a table. It
//! allocates nothing and keeps no state. The library for C uses it.
#![tactic(auto)]

mod ahead;
mod block_marks;
mod blocks;
mod deciding;
mod decoding;
mod ends;
mod fill_state;
mod filling;
mod held;
mod mark_blocks;
mod marking;
mod marks;
mod one_word;
mod pieces;
mod profiles;
mod raw_break;
mod roomy;
mod stepping;
mod strays;
mod target;
mod tries;
mod unit;
mod utf16;
mod utf32;
mod utf8;
mod width;

pub use deciding::{Decided, decide_one};
pub use decoding::is_second;
pub use ends::{END, START, end_shown, put_end};
pub use fill_state::FillState;
pub use filling::{FEW, fill, fill_common, fill_few, fill_on, put};
pub use marking::{fill_marks, mark_end};
pub use marks::clear;
pub use profiles::{goes_on, plain_number, profile_numbered};
pub use raw_break::RawBreak;
pub use tries::begins_emoji;
pub use unit::{Unit, UnitScalar};
