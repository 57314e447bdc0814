//! Why a chunker cannot be made.

use lbk_passage::PassageFault;

/// Why a chunker cannot be made.
#[derive(Clone, Copy, Debug, PartialEq, Eq)]
pub enum ChunkFault {
    /// The limits of a chunk are out of range. They are checked first.
    Limits,
    /// The limit of a paragraph is out of range, or an allocation failed.
    Passage(PassageFault),
}
