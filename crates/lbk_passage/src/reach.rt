//! How far a paragraph reaches into a piece of text.

ghost use Rattle.std.specs.Prelude.{◌≡◌, ℕ, ◌+◌, ◌<◌, ◌≤◌, false, not, IsCharBoundary, Option, length, slice_index_or};
ghost use Rattle.lbk_masks.specs.Sets.{is_set};
ghost use Rattle.lbk_rules.specs.declared.Class.{Class};
ghost use Rattle.lbk_passage.specs.Flags.{AreCalm, Passes, is_end};

use crate::ends::ends_at;
use crate::flags::ALL_SETS;
use crate::known::KnownCells;
use lbk_masks::{first_set, without_first};
use lbk_rules::{CellSource, Class};

/// How many bytes are examined together.
const BLOCK: usize = 64;

/// Why a paragraph reaches no further into a piece.
#[derive(Clone, Copy, PartialEq, Eq, Debug)]
pub enum ReachEnd {
    /// The piece is all of the paragraph.
    PieceEnds,
    /// A line must end before the next scalar.
    LineEnds,
    /// The next scalar has no room in the paragraph.
    NoRoom,
}

/// How many bytes of a piece belong to a paragraph, the class of the last scalar before the next, and why no more do.
#[derive(Clone, Copy, Debug)]
pub struct Reach {
    pub len: usize,
    pub last: Option<Class>,
    pub stop: ReachEnd,
}

ghost use Rattle.lbk_passage.specs.Gathering.{Reaches};

/// How much of a piece belongs to a paragraph, as far as it was read, and the class of the scalar before that end.
#[derive(Clone, Copy)]
struct Scanned {
    len: usize,
    last: Option<Class>,
}

impl Scanned {
    fn stops(self, stop: ReachEnd) -> Reach
        ensures { (result.len ≡ self.len) × (result.last ≡ self.last) × (result.stop ≡ stop) }
    {
        Reach {
            len: self.len,
            last: self.last,
            stop,
        }
    }
}

/// How far a paragraph that stands at a scalar of class `last` reaches into `piece`, where `room` bytes are left.
pub fn reach_in<C: CellSource>(
    known: &KnownCells<'_, C>,
    last: Option<Class>,
    piece: &str,
    room: usize,
) -> Reach
    ensures { Reaches (C.cell_of known.now.cells.now) last piece.now room result }
{
    let most = piece.floor_char_boundary(room);
    let mut here = Scanned { len: 0, last };
    loop {
        // Scalars after which no line must end come in runs.
        let quiet = pass_quiet(known, piece, most, here);
        let mut scalars = piece[quiet.len..].chars();
        let Some(c) = scalars.next() else {
            return quiet.stops(ReachEnd::PieceEnds);
        };
        let class = known.cells.cell(c).class;
        if ends_at(quiet.last, class) {
            return quiet.stops(ReachEnd::LineEnds);
        }
        let next = piece.len() - scalars.as_str().len();
        if next > room {
            return quiet.stops(ReachEnd::NoRoom);
        }
        here = Scanned {
            len: next,
            last: Some(class),
        };
    }
}

/// Passes over scalars up to the byte `most` after which no line must end, nor after the one before them. It may stop
/// before others, but not often.
#[inline(always)]
fn pass_quiet<C: CellSource>(
    known: &KnownCells<'_, C>,
    piece: &str,
    most: usize,
    here: Scanned,
) -> Scanned
    requires order { here.len ≤ most }
    requires most { IsCharBoundary piece.now most }
    ensures passes { (first : Option Class) (room : ℕ) → most ≤ room
        → Passes (C.cell_of known.now.cells.now) first piece.now room here.len here.last
        → Passes (C.cell_of known.now.cells.now) first piece.now room result.len result.last }
    ensures onward { here.len ≤ result.len }
{
    if is_end(here.last) {
        return here;
    }
    let calm = past_calm(known, piece, here.len, most);
    let len = known.flags.past_quiet(piece.as_bytes(), calm, most);
    if len == here.len {
        return here;
    }
    let Some(last) = piece[..len].chars().next_back() else {
        return here;
    };
    Scanned {
        len,
        last: Some(known.cells.cell(last).class),
    }
}

/// Up to where a line must end after none of the scalars that begin from `start` on, `most` at most: as far as whole
/// blocks of bytes go.
#[inline(always)]
fn past_calm<C: CellSource>(
    known: &KnownCells<'_, C>,
    piece: &str,
    start: usize,
    most: usize,
) -> usize
    requires order { start ≤ most }
    requires most { IsCharBoundary piece.now most }
    ensures within { (start ≤ result) × (result ≤ most) }
    ensures calm { AreCalm (C.cell_of known.now.cells.now) piece.now start result }
{
    let Some(sets) = known.flags.loud() else {
        return start;
    };
    let bytes = piece.as_bytes();
    let mut at = start;
    while most - at >= BLOCK {
        let loud = sets.members(ALL_SETS, &bytes[at..]);
        let end = past_calm_block(known, piece, at, loud);
        if end < at + BLOCK {
            return end;
        }
        at = end;
    }
    at
}

/// The same of a block of bytes, where the bits of `loud` tell which of them are not quiet.
#[inline(always)]
fn past_calm_block<C: CellSource>(
    known: &KnownCells<'_, C>,
    piece: &str,
    start: usize,
    loud: u64,
) -> usize
    requires within { start + 64 ≤ length piece.now }
    requires told { (i : ℕ) → i < 64 → is_set loud i
        ≡ not (slice_index_or known.now.flags.is_quiet (slice_index_or piece.now (start + i) 0) false) }
    ensures within { (start ≤ result) × (result ≤ start + 64) }
    ensures calm { AreCalm (C.cell_of known.now.cells.now) piece.now start result }
{
    let mut left = loud;
    while 0 < left {
        let at = start + first_set(left);
        let Some(c) = piece[at..].chars().next() else {
            return at;
        };
        if known.cells.cell(c).class.ends_line() {
            return at;
        }
        left = without_first(left);
    }
    start + BLOCK
}

/// Whether a line must end after a scalar of this class, if there is one, unless a line feed follows.
fn is_end(last: Option<Class>) -> bool
    ensures { result ≡ is_end last }
{
    match last {
        None => false,
        Some(class) => class.ends_line(),
    }
}
