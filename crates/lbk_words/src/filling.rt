//! A block that is filled with words.

ghost use Rattle.std.specs.Prelude.{◌≡◌, ◌<◌, ◌≤◌, drop, length, min, take};
ghost use Rattle.lbk_words.specs.Filling.{FillsOn};
ghost use Rattle.lbk_words.specs.Words.{AreRising, IsBoundary, words_on};

use crate::blocks::{BLOCK, fill_by_marks};
use crate::parts::fill_by_scalars;
use crate::word::{Filled, Word};

/// Puts the first words of what a text has from the byte `start` on, as a text of its own, into the front of a block:
/// as many as it holds, or all. The others come from the byte on that is returned, which is the text's end where the
/// block has more room.
///
/// The text may be any bytes: each longest piece that begins no scalar is read as U+FFFD (Unicode Standard, section
/// 3.9). The words are the same with masks, by which words among ASCII are found, and without: these are for targets
/// that have no vectors.
pub fn fill<const MASKS: bool>(text: &[u8], start: usize, out: &mut [Word]) -> Filled
    ensures count { result.count ≡ min (length out.old) (length (words_on text.now start)) }
    ensures front { take result.count out.new ≡ take result.count (words_on text.now start) }
    ensures rest { words_on text.now result.at ≡ drop result.count (words_on text.now start) }
    ensures onward { start ≤ result.at }
    ensures boundary { IsBoundary text.now start result.at }
    ensures rising { AreRising start result.at (take result.count out.new) }
    ensures within { start ≤ length text.now → result.at ≤ length text.now }
    ensures all { result.count < length out.old → start ≤ length text.now → result.at ≡ length text.now }
    ensures past { length text.now ≤ start → result.at ≡ start }
    ensures no_room { length out.old ≡ 0 → result.at ≡ start }
{
    let mut here = Filled {
        count: 0,
        at: start,
    };
    while here.count < out.len() && here.at < text.len() {
        here = fill_further::<MASKS>(text, here, out);
    }
    here
}

/// Goes on from a boundary, by as many bytes as marks are made of, where the text has so many.
#[inline(always)]
fn fill_further<const MASKS: bool>(text: &[u8], here: Filled, out: &mut [Word]) -> Filled
    requires { (here.count < length out.old) × (here.at < length text.now) }
    ensures fills { FillsOn text.now here out.old result out.new }
    ensures further { result.count < length out.old → here.at < result.at }
{
    if !MASKS || text.len() - here.at < BLOCK {
        return fill_by_scalars::<false>(text, here, text.len(), out);
    }
    fill_by_marks(text, here, out)
}
