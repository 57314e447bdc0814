//! The arguments of the command line: the task that they ask for, or why there is none.
#![tactic(auto)]

pub mod laws;
mod numbers;
mod one_line;
mod options;
mod order;
mod parsing;
mod property_values;
mod sign;
mod usage;
mod wrong_bytes;

pub use one_line::OneLine;
pub use order::{Engine, FileName, FileNames, Order, Part, PropertyValues, Sizes, WordsFault};
pub use parsing::{DEFAULT_LIMIT, parse};
pub use sign::DEFAULT_SIGN;
