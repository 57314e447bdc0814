//! The chunks of a reader's text: those of the whole text (`lbk_chunks`).
#![tactic(auto)]

mod choosing;
mod chunker;
mod cut;
mod faults;
mod gathering;
mod held;
mod laws;
mod window;
mod word_laws;

pub use chunker::Chunker;
pub use cut::Chunk;
pub use faults::ChunkFault;
pub use laws::{cuts_of_all_passages, run_ends, run_goes_on, settled_chunks_come_first};
pub use window::Window;
pub use word_laws::{words_of_a_passage, words_of_all_passages, words_of_parts};
