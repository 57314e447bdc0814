//! In-memory devices for tests, with short and failing reads and writes.

mod memory_sink;
mod memory_source;
mod repeated_source;

pub use memory_sink::MemorySink;
pub use memory_source::MemorySource;
pub use repeated_source::RepeatedSource;
