//! The words of a text, a block at a time, for a caller in another language. The function under `no_mangle` is the
//! export of the module for JavaScript that `scripts/module` builds of this crate.

ghost use Rattle.std.specs.Prelude.{length};
ghost use Rattle.lbk_words.specs.Calls.{GivesWords};

use crate::filling::fill;
use crate::word::Word;

/// How far the words of a text were read. All zeros mean the start of a text.
#[repr(C)]
#[derive(Clone, Copy)]
pub struct WordState {
    /// The offset from which the next words are read. The text from there on counts as a whole text.
    pub at: usize,
}

/// Writes the next words of a text (UAX #29, section 4) to the front of the block, from the state on, and returns how
/// many: as many as the block holds, or all that are left. The text may be any bytes; each maximal subpart of
/// ill-formed bytes is read as U+FFFD (Unicode Standard, section 3.9).
///
/// Returns 0 and leaves the state unchanged if the block has no room, or if the state is at or past the end of the
/// text. The entries of the block after the words are unspecified.
#[unsafe(no_mangle)]
pub extern "C" fn lbk_words(state: &mut WordState, text: &[u8], out: &mut [Word]) -> usize
    ensures { GivesWords text.now state.old state.new (length out.old) out.new result }
{
    let filled = fill::<false>(text, state.at, out);
    state.at = filled.at;
    filled.count
}
