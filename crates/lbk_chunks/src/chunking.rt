//! Chunks, a block at a time.

ghost use Rattle.std.specs.Prelude.{◌≡◌, ℕ, ◌<◌, ◌≤◌, [], false, List, IfSome, MatchOption, Some, length, min, take};
ghost use Rattle.std.specs.Prelude.{if◌then◌else◌};
ghost use Rattle.lbk_rules.specs.declared.Cell.{Cell};
ghost use Rattle.lbk_chunks.specs.declared.chunk.Chunk.{Chunk};
ghost use Rattle.lbk_chunks.specs.declared.cut.Cut.{Cut};
ghost use Rattle.lbk_rules.specs.declared.neighbours.Neighbours.{Neighbours};
ghost use Rattle.lbk_chunks.specs.Calls.{GivesChunks};
ghost use Rattle.lbk_chunks.specs.Chunks.{AreChunks, AreTold, after, cuts_past, is_early};
ghost use Rattle.lbk_chunks.specs.Chunks.{may_start, start_at};
ghost use Rattle.lbk_chunks.specs.Coming.{AreGiven, ArePlaced, IsCutOf, IsEnd, IsEnding};
ghost use Rattle.lbk_chunks.specs.Coming.{IsGiven, IsKept, IsStanding, KeepsCuts, Knows};

use crate::choosing::{are_limits, fits, is_early, may_start};
use crate::chunk::{Chunk, ChunkState, Here, Limits};
use crate::cut::{Cut, Mark};
use crate::window::Window;
use lbk_rules::KindSource;

/// Writes the next chunks of a text to the front of the block, from the state on, and returns how many: as many as the
/// block holds, or all that are left. The text may be any bytes.
///
/// Returns 0 and leaves the state unchanged if the block has no room, if no chunk is left, if the limits are out of
/// range, or if the profile is unknown. The entries of the block after the chunks are unspecified.
pub fn chunks<K: KindSource>(
    table: &K,
    limits: &Limits,
    state: &mut ChunkState,
    text: &[u8],
    out: &mut [Chunk],
) -> usize
    ensures { GivesChunks (K.kinds_of table.now) (K.pairs_of table.now) limits.now text.now state.old state.new
        (length out.old) out.new result }
{
    if !are_limits(limits) {
        return 0;
    }
    if GREATEST_PROFILE < state.place.breaks.profile {
        return 0;
    }
    if state.told < state.start {
        return 0;
    }
    let home = Mark {
        place: state.place,
        at: state.start,
    };
    let mut window = Window::new(table, text, home);
    let mut here = Here {
        start: state.start,
        words: state.place.words,
        told: state.told,
    };
    let count = give_chunks(table, limits, &mut here, text, &mut window, out);
    if count == 0 {
        return 0;
    }
    *state = ChunkState {
        place: window.place_of(table, text, here.start),
        start: here.start,
        told: here.told,
    };
    count
}

/// Writes the chunks from here on to the front of the block.
fn give_chunks<K: KindSource>(
    table: &K,
    limits: &Limits,
    here: &mut Here,
    text: &[u8],
    window: &mut Window,
    out: &mut [Chunk],
) -> usize
    requires { here.old.start ≤ here.old.told }
    ensures within { result ≤ length out.old }
    ensures told { IsKept text.now window.old → AreTold here.old.told here.new.told (length text.now) (take result out.new) }
    ensures order { here.new.start ≤ here.new.told }
    ensures given { (cell : ℕ → Cell) (cuts : List Cut) (to_come : List Chunk)
        → Knows cell (K.kinds_of table.now) (K.pairs_of table.now) text.now cuts window.old here.old
        → AreChunks limits.now cuts here.old to_come
        → AreGiven cell (K.kinds_of table.now) (K.pairs_of table.now) text.now limits.now cuts to_come result out.new
        window.new here.new
        × (result ≡ min (length out.old) (length to_come)) }
{
    let mut count = 0;
    while count < out.len() {
        let Some(given) = next_chunk(table, limits, here, text, window) else {
            return count;
        };
        window.settle(given.next.start);
        out[count] = given.chunk;
        *here = given.next;
        count += 1;
    }
    count
}

/// A chunk, and where the next one starts.
#[derive(Clone, Copy)]
struct Given {
    chunk: Chunk,
    next: Here,
}

/// The chunk from here on.
fn next_chunk<K: KindSource>(
    table: &K,
    limits: &Limits,
    here: &Here,
    text: &[u8],
    window: &mut Window,
) -> Option<Given>
    ensures keeps { KeepsCuts (K.kinds_of table.now) (K.pairs_of table.now) text.now window.old window.new }
    ensures given { (cell : ℕ → Cell) (cuts : List Cut)
        → Knows cell (K.kinds_of table.now) (K.pairs_of table.now) text.now cuts window.old here.now
        → MatchOption result (cuts_past here.now.told cuts ≡ []) (IsGiven limits.now cuts here.now) }
    ensures places { IfSome result (λ given. (given.chunk.start ≡ here.now.start)
        × (given.next.told ≡ given.chunk.end) × (given.next.start ≤ given.next.told)) }
    ensures within { IsKept text.now window.old → IfSome result (λ given. (here.now.told < given.chunk.end)
        × (given.chunk.end ≤ length text.now)) }
    ensures onward { IsKept text.now window.old → here.now.start ≤ here.now.told
        → IfSome result (λ given. here.now.start ≤ given.next.start) }
{
    let Some(end) = chunk_end(table, limits, here, text, window) else {
        return None;
    };
    let chunk = Chunk {
        start: here.start,
        end: end.at,
        words: end.words.saturating_sub(here.words),
        kind: end.kind,
        rule: end.rule,
        alone: !fits(limits, here, end.at, end.words),
    };
    Some(Given {
        chunk,
        next: next_start(table, limits, here, &end, text, window),
    })
}

/// How far the cuts ahead fit.
#[derive(Clone, Copy)]
struct Fitting {
    /// The last cut up to which all fit.
    last: Cut,
    /// The last of them at which the chunk may end early.
    early: Option<Cut>,
    /// The place after the last one, in its block.
    next: usize,
    /// The place after the early one, in its block.
    next_early: usize,
}

/// The cut at which the chunk ends.
fn chunk_end<K: KindSource>(
    table: &K,
    limits: &Limits,
    here: &Here,
    text: &[u8],
    window: &mut Window,
) -> Option<Cut>
    ensures keeps { KeepsCuts (K.kinds_of table.now) (K.pairs_of table.now) text.now window.old window.new }
    ensures end { (cell : ℕ → Cell) (cuts : List Cut)
        → Knows cell (K.kinds_of table.now) (K.pairs_of table.now) text.now cuts window.old here.now
        → MatchOption result (cuts_past here.now.told cuts ≡ [])
        (λ end. IsEnd limits.now cuts here.now end × IsCutOf cuts end) }
    ensures within { IsKept text.now window.old
        → IfSome result (λ end. (here.now.told < end.at) × (end.at ≤ length text.now)) }
{
    let Some(first) = window.first_past(table, text, here.told) else {
        return None;
    };
    if !fits(limits, here, first.at, first.words) {
        return Some(first);
    }
    let begun = fit_up_to(limits, here, first, window.next, None, 0);
    let mut so_far = fit_on(limits, here, window, begun);
    window.next = so_far.next;
    while let Some(next) = window.first_past(table, text, so_far.last.at) {
        if !fits(limits, here, next.at, next.words) {
            if let Some(early) = so_far.early {
                window.next = so_far.next_early;
                return Some(early);
            }
            return Some(so_far.last);
        }
        let begun = fit_up_to(
            limits,
            here,
            next,
            window.next,
            so_far.early,
            so_far.next_early,
        );
        so_far = fit_on(limits, here, window, begun);
        window.next = so_far.next;
    }
    Some(so_far.last)
}

/// All cuts up to the one before a place of its block fit.
#[inline(always)]
fn fit_up_to(
    limits: &Limits,
    here: &Here,
    last: Cut,
    next: usize,
    early: Option<Cut>,
    next_early: usize,
) -> Fitting
    ensures last { result.last ≡ last }
    ensures early { result.early ≡ (if is_early limits.now here.now last then Some last else early) }
{
    if is_early(limits, here, last.at, last.kind == MUST) {
        return Fitting {
            last,
            early: Some(last),
            next,
            next_early: next,
        };
    }
    Fitting {
        last,
        early,
        next,
        next_early,
    }
}

/// Goes on over the cuts of a block that fit.
#[inline(always)]
fn fit_on(limits: &Limits, here: &Here, window: &Window, start: Fitting) -> Fitting
    ensures ending { (cell : ℕ → Cell) (kinds : List ℕ) (pairs : Neighbours) (text : List ℕ) (cuts : List Cut)
        → Knows cell kinds pairs text cuts window.now here.now
        → IsEnding limits.now cuts here.now start.last start.early
        → IsEnding limits.now cuts here.now result.last result.early }
    ensures placed { (text : List ℕ) → IsKept text window.now → ArePlaced here.now.told (length text) start
        → ArePlaced here.now.told (length text) result }
    ensures onward { start.last.at ≤ result.last.at }
{
    let block = window.block_past(start.last.at);
    let from = block.behind_cut(start.last.at, window.next);
    let mut last = start.last.at;
    let mut early = 0;
    let mut k = from;
    while k < block.count {
        let next = &block.cuts[k];
        if next.at <= last || !fits(limits, here, next.at, next.words) {
            break;
        }
        last = next.at;
        k += 1;
        early = early_place(limits, here, next, k, early);
    }
    Fitting {
        last: block.cut_before(k, from, start.last),
        early: block.cut_or(early, start.early),
        next: k,
        next_early: if early == 0 { start.next_early } else { early },
    }
}

/// The place after a cut, if the chunk may end early there, or else the one found so far.
#[inline(always)]
fn early_place(limits: &Limits, here: &Here, cut: &Cut, place: usize, early: usize) -> usize
    ensures early { result ≡ (if is_early limits.now here.now cut.now then place else early) }
    ensures few { early ≤ place → result ≤ place }
{
    if is_early(limits, here, cut.at, cut.kind == MUST) {
        return place;
    }
    early
}

/// Where the next chunk starts, after one that ends at a cut.
fn next_start<K: KindSource>(
    table: &K,
    limits: &Limits,
    here: &Here,
    end: &Cut,
    text: &[u8],
    window: &mut Window,
) -> Here
    ensures keeps { KeepsCuts (K.kinds_of table.now) (K.pairs_of table.now) text.now window.old window.new }
    ensures next { (cell : ℕ → Cell) (cuts : List Cut)
        → Knows cell (K.kinds_of table.now) (K.pairs_of table.now) text.now cuts window.old here.now
        → here.now.told < end.now.at → IsCutOf cuts end.now
        → (result ≡ after limits.now cuts here.now end.now) × IsStanding cuts result.start result.words }
    ensures told { (result.told ≡ end.now.at) × (result.start ≤ result.told) }
    ensures onward { here.now.start ≤ end.now.at → here.now.start ≤ result.start }
{
    let fresh = start_at(end, end.at);
    if limits.overlap == 0 {
        return fresh;
    }
    let Some(next) = window.first_past(table, text, end.at) else {
        return fresh;
    };
    let mut at = start_from(limits, here, end.at);
    while let Some(found) = window.first_past(table, text, at) {
        if end.at <= found.at {
            return fresh;
        }
        let again = start_at(&found, end.at);
        if may_start(limits, here, &again, next.at, next.words) {
            return again;
        }
        at = found.at;
    }
    fresh
}

/// A byte up to which no cut starts the next chunk, because it would repeat too much.
fn start_from(limits: &Limits, here: &Here, end: usize) -> usize
    ensures start { here.now.start ≤ result }
    ensures none { (last next cut : Cut) → last.at ≡ end → here.now.start < end → here.now.start < cut.at
        → cut.at ≤ result
        → may_start limits.now here.now last next cut ≡ false }
{
    let half = end.saturating_sub(here.start) / 2;
    let twice = limits.overlap.min(half);
    let from = end.saturating_sub(twice).saturating_sub(1);
    if from < here.start {
        return here.start;
    }
    from
}

/// The start at a cut.
#[inline(always)]
fn start_at(cut: &Cut, told: usize) -> Here
    ensures { result ≡ start_at cut.now told }
{
    Here {
        start: cut.at,
        words: cut.words,
        told,
    }
}

/// The kind of a break at which a line must end.
const MUST: u8 = 2;

/// The greatest number that names a profile.
const GREATEST_PROFILE: u8 = 3;
