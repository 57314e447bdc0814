//! The interface to the rules of line breaking: Unicode Standard Annex #14, Unicode 15.0, and to what applies them.
//!
//! A text is a list of [`Cell`]s, one for each scalar, from a [`CellSource`]. [`decide`] returns, for a position in it,
//! whether the line may break, must break or must not, and the rule that decided; [`Machine`] and [`LateMachine`] do so
//! cell by cell, with a few fields of state. `lbk_uax14` has the rules.
//!
//! A [`CellSource`] has the cells of all scalars: the tables of the property files, or [`CellPages`] made from them,
//! which are faster. [`Stepper`] decides a text scalar by scalar with such a source and constant steps. The crate
//! `lbk_passage` finds the breaks of a text in memory, and is faster still.
#![tactic(auto)]

mod after_breaks;
mod cell_table;
mod class_labels;
mod first_bytes;
mod flat_table;
mod kind_source;
mod kind_table;
mod kinds;
mod neighbours;
mod pages;
mod row_machine;
mod row_steps;
mod runs;
mod source;
mod stepper;
mod steps;
mod unicode;
mod unicode_kinds;
mod unicode_runs;
mod walk;

// Cells, and the sources of them.
pub use class_labels::class_label;
pub use lbk_uax14::{Cell, Class, Quote, resolve};
pub use pages::CellPages;
pub use source::{CellSource, FOUR_PLANES};
pub use unicode::UnicodeCells;

// Positions decided, at once or cell by cell.
pub use after_breaks::verdicts_after_a_break;
pub use lbk_uax14::{
    Break, End, Kind, LateMachine, Machine, Out, Profile, Rule, Verdict, annex, decide, decide_all,
    decide_all_in, decide_in, laws,
};
pub use stepper::Stepper;

// What `lbk_passage` and `lbk_c` step by.
pub use cell_table::CellTable;
pub use flat_table::{FlatTable, LAYOUT, digest_of_bytes};
pub use kind_source::KindSource;
pub use kinds::KINDS;
pub use lbk_uax14::{Before, Left, is_second, unless_held};
pub use neighbours::Neighbours;
pub use steps::{
    HELD, Rows, Step, WIDTH, each_side_has_a_row, number_at, place_by, rows_of, shown_by,
    shows_break, step_at, step_in, steps_decide, verdict_of,
};
