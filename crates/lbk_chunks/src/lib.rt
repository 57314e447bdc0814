//! Chunks: a text cut for search and retrieval, at breaks outside words.
#![tactic(auto)]

mod choosing;
mod chunk;
mod chunking;
mod cursor;
mod cut;
mod cut_block;
mod laws;
mod window;
mod word_block;
mod words_behind;

pub use choosing::{are_limits, fits, is_early, may_start};
pub use chunk::{Chunk, ChunkState, Here, Limits};
pub use chunking::chunks;
pub use cut::{Cut, Place};
pub use laws::chunks_of_cuts;
