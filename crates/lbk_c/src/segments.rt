//! The segments of a text, a block at a time.

ghost use Rattle.std.specs.Prelude.{◌≡◌, ◌⊎◌, ℕ, ◌+◌, ◌<◌, ◌≤◌, ◌++◌, List, length, take};
ghost use Rattle.lbk_rules.specs.declared.Break.{Break};
ghost use Rattle.lbk_rules.specs.declared.Cell.{Cell};
ghost use Rattle.lbk_calls.specs.Calls.{Advances, BreaksComeAtStart};
ghost use Rattle.lbk_calls.specs.Coming.{Comes};
ghost use Rattle.lbk_c.specs.Segments.{AreWithin, SegmentsNext, next_start, segments_between};

use lbk_bytes::RawBreak;
use lbk_calls::{State, give_breaks};
use lbk_rules::FlatTable;

/// How many breaks are found at a time.
const BLOCK: usize = 64;

/// A part of a text between two breaks: the bytes from `start` up to and without `end`.
#[repr(C)]
#[derive(Clone, Copy)]
pub struct Segment {
    /// The offset of its first byte.
    pub start: usize,
    /// The offset of the break at its end.
    pub end: usize,
    /// Whether a line may or must end there: 1 for May, 2 for Must.
    pub kind: u8,
    /// The number of the rule that decided there.
    pub rule: u8,
}

/// How far a text was cut into segments. All zeros mean the start of a text, in the first profile.
#[repr(C)]
#[derive(Clone, Copy)]
pub struct SegmentState {
    /// How far its breaks were read.
    pub breaks: State,
    /// Where the next segment starts.
    pub start: usize,
}

/// Writes the next segments of a text to the front of the block, from the state on, and returns how many: as many as
/// the block holds, or all that are left. A segment ends at each break of `lbk_breaks`, and begins where the one before
/// it ends.
///
/// Returns 0 and leaves the state unchanged if the block has no room, if the end was returned, if the state is past it,
/// or if the profile is unknown. The entries of the block after the segments are unspecified. With any table and state,
/// the state advances as that of `lbk_breaks`, so a loop of calls while the block is full terminates.
#[unsafe(no_mangle)]
pub extern "C" fn lbk_segments(
    table: &FlatTable,
    state: &mut SegmentState,
    text: &[u8],
    out: &mut [Segment],
) -> usize
    ensures within { result ≤ length out.old }
    ensures advances { Advances state.old.breaks state.new.breaks (length text.now) (length out.old) result }
    ensures all { state.old.breaks.profile ≤ 3 → state.old.breaks.at ≤ length text.now → result < length out.old
        → 0 < state.new.breaks.ended }
    ensures begins { BreaksComeAtStart table.now.kinds table.now.pairs text.now state.old.breaks }
    ensures gives { (cell : ℕ → Cell) (to_come : List Break)
        → Comes cell table.now.kinds table.now.pairs text.now state.old.breaks to_come
        → SegmentsNext (Comes cell table.now.kinds table.now.pairs text.now) state.old state.new (length out.old)
        out.new result to_come }
    // Of any table: each segment is within the text, and ends at a break by a rule.
    ensures sound { state.old.start ≤ state.old.breaks.at → state.old.breaks.at ≤ length text.now
        → AreWithin (length text.now) (take result out.new) × (state.new.start ≤ state.new.breaks.at)
        × (state.new.breaks.at ≤ length text.now) }
    ensures stays { (3 < state.old.breaks.profile) ⊎ ((0 < state.old.breaks.ended)
        ⊎ ((length text.now < state.old.breaks.at) ⊎ (length out.old ≡ 0))) → (result ≡ 0) × (state.new ≡ state.old) }
{
    let mut block = [RawBreak {
        at: 0,
        kind: 0,
        rule: 0,
    }; BLOCK];
    let mut count = 0;
    loop {
        let room = BLOCK.min(out.len() - count);
        let given = give_breaks::<true, FlatTable>(
            table,
            &mut state.breaks,
            text,
            &mut block[..room],
        );
        state.start = put_segments(&block[..given], state.start, out, count);
        count += given;
        if given < BLOCK {
            return count;
        }
    }
}

/// Writes the segments that end at some breaks to a block, from an index on, and returns where the next one starts.
fn put_segments(breaks: &[RawBreak], start: usize, out: &mut [Segment], from: usize) -> usize
    requires { from + length breaks.now ≤ length out.old }
    ensures front { take (from + length breaks.now) out.new ≡ take from out.old ++ segments_between start breaks.now }
    ensures next { result ≡ next_start start breaks.now }
{
    let mut start = start;
    let mut k = 0;
    while k < breaks.len() {
        let RawBreak { at, kind, rule } = breaks[k];
        out[from + k] = Segment {
            start,
            end: at,
            kind,
            rule,
        };
        start = at;
        k += 1;
    }
    start
}
