//! The engines of the program, and its run. The output of each is a defined function of its input.
#![tactic(auto)]

mod broken;
mod chunked;
mod command;
mod ending;
mod engine;
mod faults;
mod gathered;
pub mod laws;
mod message;
mod objects;
mod operands;
mod owned;
mod parts_of_messages;
mod passages;
mod performing;
mod ranges;
mod shown;
mod signed;
mod titles;
mod waiting;

pub use broken::{BreakFault, break_text};
pub use chunked::{Asked, chunk};
pub use command::{run, run_over_texts};
pub use ending::{Ending, RunFault};
pub use engine::{mark, mark_with, segment, show};
pub use faults::CmdFault;
pub use lbk_files::{
    CellsFault, ClaimCause, LoadFault, MemoryStore, SAMPLE_FILES, Store, Version, read_cells,
    read_front,
};
pub use message::{Caller, Message};
pub use operands::{MemoryTexts, Texts};
pub use owned::{OwnedPassage, Word};
pub use parts_of_messages::{Encoding, Reason};
pub use passages::read_passages;
