//! The values of the properties that line breaking uses, and the two sets of rules.
//!
//! A crate below all others, so that the command line does not wait for the rules, nor the rules for the property
//! files.
#![tactic(auto)]

mod profile;
mod values;

pub use profile::Profile;
pub use values::{Category, EastAsian, LineBreak};
