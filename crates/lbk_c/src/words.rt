//! The words of a text, a block at a time.

ghost use Rattle.std.specs.Prelude.{length};
ghost use Rattle.lbk_words.specs.Calls.{GivesWords};

use lbk_words::{Word, WordState, fill};

/// Writes the next words of a text (UAX #29, section 4) to the front of the block, from the state on, and returns how
/// many: as many as the block holds, or all that are left. The text may be any bytes; each maximal subpart of
/// ill-formed bytes is read as U+FFFD (Unicode Standard, section 3.9).
///
/// Returns 0 and leaves the state unchanged if the block has no room, or if the state is at or past the end of the
/// text. The entries of the block after the words are unspecified.
#[unsafe(no_mangle)]
pub extern "C" fn lbk_words(state: &mut WordState, text: &[u8], out: &mut [Word]) -> usize
    ensures { GivesWords text.now state.old state.new (length out.old) out.new result }
{
    let filled = fill::<true>(text, state.at, out);
    state.at = filled.at;
    filled.count
}
