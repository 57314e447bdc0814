//! The rules of line breaking: Unicode Standard Annex #14, Unicode 15.0, over cells.
//!
//! A text is a list of [`Cell`]s, one for each scalar. [`decide`] returns for a position whether the line may break,
//! must break or must not, and the rule that decided. The crate `lbk_rules` decides texts by constant steps, and is
//! fast.
#![tactic(auto)]

pub mod annex;
mod asked;
mod breaks;
mod cells;
mod classes;
mod codes;
mod evaluator;
mod facts;
mod late_machine;
pub mod laws;
mod machine;
mod pages;
mod ranges;
mod resolution;
mod table;
mod verdicts;

// What callers use.
pub use breaks::Break;
pub use cells::Cell;
pub use classes::{Class, Quote};
pub use evaluator::{decide, decide_in};
pub use lbk_values::Profile;
pub use resolution::resolve;
pub use verdicts::{Kind, Rule, Verdict};

// What `lbk_rules` is built on, and what tests compare it with.
pub use facts::{Before, Left};
pub use late_machine::{End, LateMachine, Out, decide_all_in, unless_held};
pub use machine::{Machine, decide_all};
pub use pages::Pages;
pub use ranges::{CellRange, CellWalk};
pub use verdicts::is_second;
