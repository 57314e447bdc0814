//! The segments of a passage.

ghost use Rattle.std.specs.Prelude.{◌≡◌, ◌+◌, ◌*◌, ◌<◌, ◌≤◌, ◌^◌, ◌++◌, ◌∷◌, [], List, false, length, map, max, take};
ghost use Rattle.std.specs.Prelude.{All, IfOk, OnOk, OnErr, vec_capacity, if◌then◌else◌};
ghost use Rattle.std.specs.Str.{chars};
ghost use Rattle.lbk_rules.specs.declared.Break.{Break};
ghost use Rattle.lbk_bytes.specs.Order.{AreBreaks};
ghost use Rattle.lbk_bytes.specs.Shown.{given_in, shown};
ghost use Rattle.lbk_passage.specs.Ahead.{HasTold, segments_in};
ghost use Rattle.lbk_passage.specs.Breaks.{breaks, is_no};
ghost use Rattle.lbk_passage.specs.Cuts.{AreRising, cut_at, cut_on, ending_by, musts};
ghost use Rattle.lbk_passage.specs.Marks.{marks, ended};
ghost use Rattle.lbk_passage.specs.Front.{items_of};
ghost use Rattle.lbk_passage.specs.Room.{Grows};
ghost use Rattle.lbk_passage.specs.Segments.{segments_of};
ghost use Rattle.lbk_passage.specs.declared.passage.Segment.{Segment};

use crate::ahead::{AHEAD, Ahead};
use crate::found::{NO_BREAK, START, break_of, find, must_end_at};
use crate::front::Front;
use crate::passage::Segment;
use lbk_bytes::RawBreak;
use lbk_rules::{CellSource, Kind, Profile, Rule, Verdict};
use std::alloc::AllocError;

/// How many breaks are found at a time.
pub(crate) const BLOCK: usize = 64;

/// A block that nothing was found into. It is filled again and again, since to make one costs as much as some breaks
/// do.
pub(crate) const NO_BREAKS: [RawBreak; BLOCK] = [NO_BREAK; BLOCK];

/// A segment that stands where none was put yet.
pub(crate) const NO_SEGMENT: Segment = Segment {
    start: 0,
    end: 0,
    kind: Kind::No,
    rule: Rule::Lb31,
};

/// Writes the segments of a passage in place of what the list held: those of its text by itself, the last with the
/// verdict `end` (UAX #14, section 6). Where they were found ahead, the list is left as it is. Else their breaks are
/// found into the block. What that held does not matter, and what it holds then is unspecified. Where memory could not
/// grow the list holds some of them.
pub fn cut_lines<C: CellSource>(
    cells: &C,
    profile: Profile,
    text: &str,
    end: Verdict,
    ahead: &Ahead,
    block: &mut [RawBreak; BLOCK],
    segments: &mut Front<Segment>,
) -> Result<(), AllocError>
    requires few { length text.now < 2 ^ 32 }
    requires told { 0 < ahead.now.told → HasTold profile (C.cell_of cells.now) text.now end ahead.now }
    ensures cut { OnOk result (segments_in ahead.now segments.new
        ≡ segments_of (ended end (marks profile (C.cell_of cells.now) (chars text.now)))) }
    ensures room { vec_capacity segments.old.items ≤ vec_capacity segments.new.items }
    ensures most { is_no end.kind ≡ false
        → vec_capacity segments.new.items ≤ max (vec_capacity segments.old.items) (2 * segments.new.count) }
    ensures full { is_no end.kind ≡ false → OnErr result (vec_capacity segments.old.items
        < length (segments_of (ended end (marks profile (C.cell_of cells.now) (chars text.now))))) }
{
    if ahead.has_told() {
        return Ok(());
    }
    segments.clear();
    cut_alone(cells, profile, text, block, segments)?;
    end_last(segments, end);
    Ok(())
}

/// Puts this verdict at the end of the last segment in the list, if there is one, or takes it off where no line may break
/// there.
fn end_last(segments: &mut Front<Segment>, end: Verdict)
    ensures none { segments.old.count ≡ 0 → segments.new ≡ segments.old }
    ensures put { 0 < segments.old.count → (front : List Segment) × (last : Segment)
        × (items_of segments.old ≡ front ++ last ∷ []) × (items_of segments.new ≡ front ++ ending_by end last) }
    ensures room { vec_capacity segments.new.items ≡ vec_capacity segments.old.items }
    ensures count { is_no end.kind ≡ false → segments.new.count ≡ segments.old.count }
{
    if segments.count == 0 {
        return;
    }
    let last = segments.count - 1;
    if matches!(end.kind, Kind::No) {
        segments.count = last;
        return;
    }
    let segment = &mut segments.items[last];
    segment.kind = end.kind;
    segment.rule = end.rule;
}

/// Puts the segments of a text by itself, the last with the verdict at its end, after those in the list.
fn cut_alone<C: CellSource>(
    cells: &C,
    profile: Profile,
    text: &str,
    block: &mut [RawBreak; BLOCK],
    segments: &mut Front<Segment>,
) -> Result<(), AllocError>
    requires { length text.now < 2 ^ 32 }
    ensures cut { OnOk result (items_of segments.new
        ≡ items_of segments.old ++ cut_at 0 (breaks profile (C.cell_of cells.now) (chars text.now))) }
    ensures count { OnOk result (segments.new.count
        ≡ segments.old.count + length (breaks profile (C.cell_of cells.now) (chars text.now))) }
    ensures grows { Grows segments.old segments.new }
    ensures full { OnErr result (vec_capacity segments.old.items
        < segments.old.count + length (breaks profile (C.cell_of cells.now) (chars text.now))) }
{
    let mut here = START;
    let mut start = 0;
    loop {
        let next = find(cells, profile, text, here, block);
        let count = next.state.count - here.state.count;
        start = cut_block(&block[..count], start, segments)?;
        if next.ended {
            return Ok(());
        }
        here = next;
    }
}

/// Puts the segments that end at these breaks after those in the list, the first from `start` on, and returns where
/// the next begins.
#[inline(always)]
fn cut_block(
    block: &[RawBreak],
    start: u32,
    segments: &mut Front<Segment>,
) -> Result<u32, AllocError>
    requires breaks { AreBreaks block.now (length block.now) }
    requires few { All (λ one. one.at < 2 ^ 32) block.now }
    ensures cut { IfOk result (λ next. (more : List Break) → items_of segments.new ++ cut_at next more
        ≡ items_of segments.old ++ cut_at start (map shown block.now ++ more)) }
    ensures count { OnOk result (segments.new.count ≡ segments.old.count + length block.now) }
    ensures grows { Grows segments.old segments.new }
    ensures full { OnErr result (vec_capacity segments.old.items < segments.old.count + length block.now) }
{
    segments.make_room(block.len(), NO_SEGMENT)?;
    let mut count = segments.count;
    let slots = segments.items.as_mut_slice();
    let mut start = start;
    for one in block {
        let found = break_of(*one);
        let end = one.at as u32;
        let segment = &mut slots[count];
        segment.start = start;
        segment.end = end;
        segment.kind = found.kind;
        segment.rule = found.rule;
        start = end;
        count += 1;
    }
    segments.count = count;
    Ok(start)
}

/// Puts the segments that end at the first `count` breaks of a text into the front of `segments`. Their offsets count
/// from the first byte of their passage: one begins with the text, and one behind each break at which a line must end.
/// Puts the places of these breaks into the front of `ends`, and returns how many they are.
#[inline(always)]
pub(crate) fn cut_passages(
    block: &[RawBreak; AHEAD],
    count: usize,
    segments: &mut [Segment; AHEAD],
    ends: &mut [u16; AHEAD],
) -> usize
    requires breaks { AreBreaks block.now count }
    requires room { count ≤ 1024 }
    requires rising { AreRising 0 (2 ^ 32) (given_in block.now count) }
    ensures cut { take count segments.new ≡ cut_on 0 0 (given_in block.now count) }
    ensures ends { take result ends.new ≡ musts 0 (given_in block.now count) }
    ensures few { result ≤ count }
    ensures long { (length segments.new ≡ 1024) × (length ends.new ≡ 1024) }
{
    let mut ends_count = 0;
    let mut start = 0;
    let mut base = 0;
    for k in 0..count {
        let one = block[k];
        let found = break_of(one);
        let must = must_end_at(one);
        let end = (one.at - base) as u32;
        let segment = &mut segments[k];
        segment.start = start;
        segment.end = end;
        segment.kind = kind_by(must);
        segment.rule = found.rule;
        ends[ends_count] = k as u16;
        ends_count += usize::from(must);
        start = if must { 0 } else { end };
        base = if must { one.at } else { base };
    }
    ends_count
}

/// The kind of a break.
#[inline(always)]
fn kind_by(must: bool) -> Kind
    ensures { result ≡ (if must then Kind.Must else Kind.May) }
{
    if must { Kind::Must } else { Kind::May }
}
