//! The calls that allocate nothing, for callers in other languages: the breaks and the positions of a text, a block at
//! a time, the names of rules and classes, what rules say, whether a table is intact, and breaks as columns. Also the
//! kinds of all codes in a few kilobytes: [`pack`] writes a head, and a record for each run of codes of one kind;
//! [`unpack`] accepts only this form. The rest of a table follows from its kinds.
//!
//! The `no_mangle` functions are the exports of the module for JavaScript, which `scripts/module` builds from this
//! crate for WebAssembly. Their loops do not use masks, because that target has no vectors. The library for C (`lbk_c`)
//! calls the same functions, with loops that use masks.
#![tactic(auto)]

mod breaking;
mod checking;
mod class_labels;
mod columns;
mod giving;
mod interface;
mod labels;
mod packed_tables;
mod packing;
mod padding;
mod records;
mod rule_texts;
mod runs;
mod unicode;
mod unpacking;

pub use breaking::{going_profile, lbk_breaks, lbk_breaks_utf16, lbk_positions, plain};
pub use checking::lbk_check;
pub use class_labels::lbk_class;
pub use columns::lbk_columns;
pub use giving::{Given, give_breaks, next_of, start_of};
pub use interface::{ClassLabel, RuleLabel, State, Text};
pub use labels::lbk_label;
pub use packed_tables::{lbk_pack, lbk_unpack};
pub use packing::pack;
pub use padding::padded;
pub use rule_texts::{lbk_rule_text, rule_text};
pub use runs::{KINDS_SIZE, Run};
pub use unicode::lbk_unicode;
pub use unpacking::{Refusal, unpack};
