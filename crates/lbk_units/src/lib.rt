//! The breaks of texts in UTF-16 and UTF-32, and the positions of texts in UTF-8, too: a block is filled from a place
//! of the text on, as with breaks over bytes. What reads a scalar differs between the encodings, the steps do not.
#![tactic(auto)]

mod alone;
mod filling;
mod laws;
mod positions;
mod target;

pub use filling::{fill, fill_part};
pub use laws::same_in_each_encoding;
pub use lbk_bytes::{Unit, UnitScalar};
pub use positions::put_position;
pub use target::{Breaks, Positions, Target};
