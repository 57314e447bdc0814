//! Where a chunk ends and where the next one starts, when only the first cuts are known.

ghost use Rattle.std.specs.Prelude.{◌≡◌, ◌≤◌, ◌==◌, [], IfSome, None, Some, if◌then◌else◌, false, length, map};
ghost use Rattle.std.specs.Prelude.{true};
ghost use Rattle.std.specs.List.{list_all};
ghost use Rattle.lbk_rules.specs.Codes.{kind_number};
ghost use Rattle.lbk_chunks.specs.Chunks.{chunk_to, cuts_past, fits, is_early, may_start};
ghost use Rattle.lbk_chunks.specs.Chunks.{start_at};
ghost use Rattle.lbk_chunk_reader.specs.Numbered.{numbered, numbered_chunk};
ghost use Rattle.lbk_chunk_reader.specs.Choosing.{IsEndAmong, start_among_known};

use crate::cut::{Chunk, Cut};
use lbk_chunks::{Here, Limits, fits, is_early, may_start};
use lbk_rules::Kind;

/// The cuts past a byte.
pub(crate) fn past(cuts: &[Cut], at: usize) -> &[Cut]
    ensures past { map numbered result.now ≡ cuts_past at (map numbered cuts.now) }
    ensures fewer { length result.now ≤ length cuts.now }
{
    let mut left = cuts;
    while let Some((first, rest)) = left.split_first() {
        if at < first.at {
            return left;
        }
        left = rest;
    }
    left
}

/// The cut at which the chunk from here on ends, if the known cuts settle it or there are no others.
pub(crate) fn end_among(limits: &Limits, here: &Here, ahead: &[Cut], is_whole: bool) -> Option<Cut>
    ensures end { IfSome result (λ end. IsEndAmong limits.now here.now (map numbered ahead.now) is_whole
        (numbered end)) }
    ensures none { result ≡ None → is_whole ≡ true → ahead.now ≡ [] }
    ensures fit { result ≡ None → is_whole ≡ false → list_all (fits limits.now here.now)
        (map numbered ahead.now) ≡ true }
{
    let Some((first, more)) = ahead.split_first() else {
        return None;
    };
    if !cut_fits(limits, here, first) {
        return Some(*first);
    }
    let mut last = *first;
    let mut early = early_or(limits, here, first, None);
    let mut left = more;
    while let Some((next, rest)) = left.split_first() {
        if !cut_fits(limits, here, next) {
            return Some(early.unwrap_or(last));
        }
        last = *next;
        early = early_or(limits, here, next, early);
        left = rest;
    }
    if is_whole { Some(last) } else { None }
}

/// Where the next chunk starts after one that ends at a cut: `behind` are the known cuts past that end, `told` those
/// up to it.
pub(crate) fn start_behind(
    limits: &Limits,
    here: &Here,
    end: &Cut,
    behind: &[Cut],
    told: &[Cut],
) -> Here
    ensures { result ≡ start_among_known limits.now here.now (numbered end.now)
        (map numbered behind.now) (map numbered told.now) }
{
    let fresh = start_at(end, end.at);
    if limits.overlap == 0 {
        return fresh;
    }
    let Some((next, _)) = behind.split_first() else {
        return fresh;
    };
    let mut left = told;
    while let Some((cut, rest)) = left.split_first() {
        if may_start_at(limits, here, end, next, cut) {
            return start_at(cut, end.at);
        }
        left = rest;
    }
    fresh
}

/// The chunk from here on that ends at a cut.
pub(crate) fn chunk_to(limits: &Limits, here: &Here, end: &Cut) -> Chunk
    ensures { numbered_chunk result ≡ chunk_to limits.now here.now (numbered end.now) }
{
    Chunk {
        start: here.start,
        end: end.at,
        words: end.words.saturating_sub(here.words),
        kind: end.kind,
        rule: end.rule,
        alone: !cut_fits(limits, here, end),
    }
}

/// Whether a chunk from here on that ends at a cut is within the limits.
fn cut_fits(limits: &Limits, here: &Here, cut: &Cut) -> bool
    ensures { result ≡ fits limits.now here.now (numbered cut.now) }
{
    fits(limits, here, cut.at, cut.words)
}

/// Whether the next chunk may start at a cut before the end of this one.
fn may_start_at(limits: &Limits, here: &Here, end: &Cut, next: &Cut, cut: &Cut) -> bool
    ensures { result ≡ may_start limits.now here.now (numbered end.now) (numbered next.now) (numbered cut.now) }
{
    may_start(limits, here, &start_at(cut, end.at), next.at, next.words)
}

/// The cut, if the chunk may end early there, or else the one found so far.
fn early_or(limits: &Limits, here: &Here, cut: &Cut, early: Option<Cut>) -> Option<Cut>
    ensures { result ≡ (if is_early limits.now here.now (numbered cut.now) then Some cut.now else early) }
{
    if is_early(limits, here, cut.at, is_must(cut.kind)) {
        return Some(*cut);
    }
    early
}

/// Whether a line must end there.
fn is_must(kind: Kind) -> bool
    ensures { (kind_number kind == 2) ≡ result }
{
    matches!(kind, Kind::Must)
}

/// A start at a cut.
fn start_at(cut: &Cut, told: usize) -> Here
    ensures { result ≡ start_at (numbered cut.now) told }
{
    Here {
        start: cut.at,
        words: cut.words,
        told,
    }
}
