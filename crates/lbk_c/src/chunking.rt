//! The chunks of a text, a block at a time.

ghost use Rattle.std.specs.Prelude.{length};
ghost use Rattle.lbk_chunks.specs.Calls.{GivesChunks};

use lbk_chunks::{Chunk, ChunkState, Limits, chunks};
use lbk_rules::FlatTable;

/// Writes the next chunks of a text to the front of the block, from the state on, and returns how many: as many as the
/// block holds, or all that are left. The text may be any bytes.
///
/// Returns 0 and leaves the state unchanged if the block has no room, if no chunk is left, if the limits are out of
/// range, or if the profile is unknown. The entries of the block after the chunks are unspecified. With any table and
/// state, each chunk starts at or before the end of the one before it, and ends after that and within the text.
#[unsafe(no_mangle)]
pub extern "C" fn lbk_chunks(
    table: &FlatTable,
    limits: &Limits,
    state: &mut ChunkState,
    text: &[u8],
    out: &mut [Chunk],
) -> usize
    ensures { GivesChunks table.now.kinds table.now.pairs limits.now text.now state.old state.new (length out.old)
        out.new result }
{
    chunks(table, limits, state, text, out)
}
