//! The notation of the published break tests: its lines, and the comparison of files with the rules.
//!
//! The notation is that of LineBreakTest.txt of the Unicode Character Database: a mark at each position of a text, and
//! the scalars between them in hex.
#![tactic(auto)]

mod content;
mod faults;
pub mod file_laws;
mod files;
mod findings;
pub mod laws;
mod line_reading;
mod marking;
mod marks;
mod outcome;
mod passages;
mod reader;
mod replay_lines;
mod replay_state;
mod replayer;
mod round_trip;
mod test_line;
mod writing;

pub use faults::LineFault;
pub use files::replay;
pub use findings::{Outcome, ReplayFault, Report, STREAM_MAX};
pub use line_reading::read_line;
pub use marking::{mark_of, mark_text};
pub use marks::{Form, Mark};
pub use outcome::replay_line;
pub use passages::push_passage_line;
pub use round_trip::{read_back, read_passage_line};
pub use test_line::TestLine;
pub use writing::{push_line, push_mark, push_scalar, write_line};
