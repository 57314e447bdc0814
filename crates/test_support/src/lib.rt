//! What the test crates share: texts, files and rows with results from other sources, cells, and a check.
#![tactic(auto)]

pub mod calls;
pub mod cells;
pub mod checks;
pub mod engines;
pub mod marked;
pub mod property_files;
pub mod reads;
pub mod replayed;
pub mod segment_lines;
pub mod shown;
pub mod texts;
pub mod triples;
