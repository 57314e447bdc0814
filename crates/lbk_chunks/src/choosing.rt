//! Whether limits are in range, and which cuts they allow.

ghost use Rattle.std.specs.Prelude.{◌≡◌, ◌==◌};
ghost use Rattle.lbk_chunks.specs.declared.cut.Cut.{Cut};
ghost use Rattle.lbk_chunks.specs.Chunks.{are_limits, fits, is_early, may_start, start_at};

use crate::chunk::{Here, Limits};

/// Whether the limits are in range.
pub fn are_limits(limits: &Limits) -> bool
    ensures { result ≡ are_limits limits.now }
{
    0 < limits.most && limits.least <= limits.most && limits.overlap <= limits.most / 2
}

/// Whether a chunk from here on that ends at a byte, after so many words of the text, is within the limits.
#[inline(always)]
pub fn fits(limits: &Limits, here: &Here, at: usize, words: usize) -> bool
    ensures { (cut : Cut) → cut.at ≡ at → cut.words ≡ words → result ≡ fits limits.now here.now cut }
{
    at.saturating_sub(here.start) <= limits.most
        && (limits.words == 0 || words.saturating_sub(here.words) <= limits.words)
}

/// Whether the chunk from here on may end early at a byte where a line must end, or need not.
#[inline(always)]
pub fn is_early(limits: &Limits, here: &Here, at: usize, is_must: bool) -> bool
    ensures { (cut : Cut) → cut.at ≡ at → (cut.kind == 2) ≡ is_must → result ≡ is_early limits.now here.now cut }
{
    is_must && limits.least <= at.saturating_sub(here.told)
}

/// Whether the next chunk may start before the end of the one from here on, if the cut after that end is at a byte,
/// after so many words of the text.
#[inline(always)]
pub fn may_start(limits: &Limits, here: &Here, again: &Here, at: usize, words: usize) -> bool
    ensures { (end next cut : Cut) → again.now ≡ start_at cut end.at → next.at ≡ at → next.words ≡ words
        → result ≡ may_start limits.now here.now end next cut }
{
    let twice = again.told.saturating_sub(again.start);
    let size = again.told.saturating_sub(here.start);
    again.start < again.told
        && twice <= limits.overlap
        && twice <= size.saturating_sub(twice)
        && fits(limits, again, at, words)
}
