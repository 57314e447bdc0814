//! The lines that `segment` writes for a passage.

ghost use Rattle.std.specs.Prelude.{◌≡◌, ℕ, ◌+◌, ◌*◌, ◌<◌, ◌≤◌, ◌^◌, List, ◌++◌, ◌∷◌, [], length, take};
ghost use Rattle.std.specs.Prelude.{OnErr};
ghost use Rattle.std.specs.List.{flat_map};
ghost use Rattle.lbk_feed.specs.Appended.{HasPut};
ghost use Rattle.lbk_rules.specs.Labels.{label_of};
ghost use Rattle.lbk_passage.specs.Adding.{Adds};
ghost use Rattle.lbk_passage.specs.Placing.{Placed, PlacedIn};
ghost use Rattle.lbk_passage.specs.Lines.{kind_name, part, passage_lines, segment_line, whole_line, word_line};

mod offsets;
mod placing;

use crate::passage::{Passage, Piece, Segment};
use lbk_rules::{Kind, Rule};
pub use offsets::Offsets;
pub use placing::{place_byte, place_front};
use std::alloc::AllocError;

/// Room for a line, and for what its parts write past its end.
const LINE: usize = 64;

/// How many parts of a passage get room at once.
const PARTS: usize = 64;

/// Room for this many lines.
static ROOM: [u8; LINE * PARTS] = [b'\n'; LINE * PARTS];

/// Appends the lines of a passage to `out`: `P` with its offsets, `S` for each segment with the kind and the rule at
/// its end, `W` for each word. Offsets count bytes of the whole text. After an error a prefix of them may be appended.
pub fn push_segmented(
    out: &mut Vec<u8>,
    offsets: &mut Offsets,
    passage: &Passage<'_>,
) -> Result<(), AllocError>
    requires start { passage.now.start ≤ 2 ^ 62 }
    requires few { length passage.now.text.now < 2 ^ 32 }
    ensures adds { Adds out.old.items out.new.items (passage_lines passage.now.start (length passage.now.text.now)
        passage.now.segments.now passage.now.pieces.now) result }
    ensures refused { OnErr result (HasPut out.old.items out.new.items (passage_lines passage.now.start
        (length passage.now.text.now) passage.now.segments.now passage.now.pieces.now)) }
{
    let start = passage.start;
    let whole = Whole {
        len: passage.text.len() as u32,
    };
    push_lines(out, offsets, start, &[whole])?;
    push_lines(out, offsets, start, passage.segments)?;
    push_lines(out, offsets, start, passage.pieces)
}

/// Appends the lines of some parts of a passage to `out`.
fn push_lines<T: HasLine>(
    out: &mut Vec<u8>,
    offsets: &mut Offsets,
    start: u64,
    parts: &[T],
) -> Result<(), AllocError>
    requires { start ≤ 2 ^ 62 }
    ensures adds { Adds out.old.items out.new.items (flat_map (T.line start) parts.now) result }
    ensures refused { OnErr result (HasPut out.old.items out.new.items (flat_map (T.line start) parts.now)) }
{
    for some in parts.chunks(PARTS) {
        let at = out.len();
        out.extend_from_slice(&ROOM[..LINE * some.len()])?;
        let behind = place_lines(out.as_mut_slice(), at, offsets, start, some);
        out.truncate(behind);
    }
    Ok(())
}

/// Writes the lines of some parts.
fn place_lines<T: HasLine>(
    buf: &mut [u8],
    at: usize,
    offsets: &mut Offsets,
    start: u64,
    parts: &[T],
) -> usize
    requires { (start ≤ 2 ^ 62) × (at + 64 * length parts.now ≤ length buf.old) }
    ensures { Placed buf.old buf.new at (flat_map (T.line start) parts.now) result }
{
    let mut behind = at;
    for part in parts {
        behind = part.place_line(buf, behind, offsets, start);
    }
    behind
}

/// A part of a passage, which has a line or none.
trait HasLine {
    ghost line: { ℕ → Self → List ℕ };

    /// Writes its line, if it has one. Its passage starts at this byte of the text.
    fn place_line(&self, buf: &mut [u8], at: usize, offsets: &mut Offsets, start: u64) -> usize
        requires { (start ≤ 2 ^ 62) × (at + 64 ≤ length buf.old) }
        ensures { PlacedIn buf.old buf.new at 64 (line start self.now) result };
}

/// A passage as a whole, of so many bytes.
#[derive(Clone, Copy)]
struct Whole {
    len: u32,
}

impl HasLine for Whole {
    ghost line = { whole_line };

    fn place_line(&self, buf: &mut [u8], at: usize, offsets: &mut Offsets, start: u64) -> usize {
        let next = place_part(buf, at, offsets, b'P', start, start + u64::from(self.len));
        place_byte(buf, next, b'\n')
    }
}

impl HasLine for Piece {
    ghost line = { word_line };

    #[inline(always)]
    fn place_line(&self, buf: &mut [u8], at: usize, offsets: &mut Offsets, start: u64) -> usize {
        if !self.word {
            return at;
        }
        let from = start + u64::from(self.start);
        let to = start + u64::from(self.end);
        let next = place_part(buf, at, offsets, b'W', from, to);
        place_byte(buf, next, b'\n')
    }
}

impl HasLine for Segment {
    ghost line = { segment_line };

    #[inline(always)]
    fn place_line(&self, buf: &mut [u8], at: usize, offsets: &mut Offsets, start: u64) -> usize {
        let from = start + u64::from(self.start);
        let to = start + u64::from(self.end);
        let next = place_part(buf, at, offsets, b'S', from, to);
        let next = place_kind(buf, next, self.kind);
        let end = line_end_of(self.rule);
        place_front(buf, next, end.bytes, end.len)
    }
}

/// Writes the letter of a line and two offsets.
#[inline(always)]
fn place_part(
    line: &mut [u8],
    at: usize,
    offsets: &mut Offsets,
    letter: u8,
    start: u64,
    end: u64,
) -> usize
    requires { (start < 2 ^ 63) × (end < 2 ^ 63) × (at + 43 ≤ length line.old) }
    ensures { PlacedIn line.old line.new at 43 (part (letter ∷ []) start end) result }
{
    let next = place_front(line, at, [letter, b' '], 2);
    let next = offsets.place(line, next, start);
    let next = place_byte(line, next, b' ');
    offsets.place(line, next, end)
}

/// Writes the name of a kind, between two spaces.
#[inline(always)]
pub fn place_kind(line: &mut [u8], at: usize, kind: Kind) -> usize
    requires { at + 8 ≤ length line.old }
    ensures { PlacedIn line.old line.new at 6 (32 ∷ (kind_name kind ++ 32 ∷ [])) result }
{
    match kind {
        Kind::No => place_front(line, at, *b" No     ", 4),
        Kind::May => place_front(line, at, *b" May    ", 5),
        Kind::Must => place_front(line, at, *b" Must   ", 6),
    }
}

/// The label of a rule and a line end.
#[derive(Clone, Copy)]
struct LineEnd {
    bytes: [u8; 4],
    len: usize,
}

/// Those of the rules, in their order.
#[rattlefmt::skip]
static LINE_ENDS: [LineEnd; 38] = [
    LineEnd { bytes: *b"2\n  ", len: 2 },
    LineEnd { bytes: *b"3\n  ", len: 2 },
    LineEnd { bytes: *b"4\n  ", len: 2 },
    LineEnd { bytes: *b"5\n  ", len: 2 },
    LineEnd { bytes: *b"6\n  ", len: 2 },
    LineEnd { bytes: *b"7\n  ", len: 2 },
    LineEnd { bytes: *b"8\n  ", len: 2 },
    LineEnd { bytes: *b"8a\n ", len: 3 },
    LineEnd { bytes: *b"9\n  ", len: 2 },
    LineEnd { bytes: *b"11\n ", len: 3 },
    LineEnd { bytes: *b"12\n ", len: 3 },
    LineEnd { bytes: *b"12a\n", len: 4 },
    LineEnd { bytes: *b"13\n ", len: 3 },
    LineEnd { bytes: *b"14\n ", len: 3 },
    LineEnd { bytes: *b"15\n ", len: 3 },
    LineEnd { bytes: *b"15a\n", len: 4 },
    LineEnd { bytes: *b"15b\n", len: 4 },
    LineEnd { bytes: *b"16\n ", len: 3 },
    LineEnd { bytes: *b"17\n ", len: 3 },
    LineEnd { bytes: *b"18\n ", len: 3 },
    LineEnd { bytes: *b"19\n ", len: 3 },
    LineEnd { bytes: *b"20\n ", len: 3 },
    LineEnd { bytes: *b"21\n ", len: 3 },
    LineEnd { bytes: *b"21a\n", len: 4 },
    LineEnd { bytes: *b"21b\n", len: 4 },
    LineEnd { bytes: *b"22\n ", len: 3 },
    LineEnd { bytes: *b"23\n ", len: 3 },
    LineEnd { bytes: *b"23a\n", len: 4 },
    LineEnd { bytes: *b"24\n ", len: 3 },
    LineEnd { bytes: *b"25\n ", len: 3 },
    LineEnd { bytes: *b"26\n ", len: 3 },
    LineEnd { bytes: *b"27\n ", len: 3 },
    LineEnd { bytes: *b"28\n ", len: 3 },
    LineEnd { bytes: *b"29\n ", len: 3 },
    LineEnd { bytes: *b"30\n ", len: 3 },
    LineEnd { bytes: *b"30a\n", len: 4 },
    LineEnd { bytes: *b"30b\n", len: 4 },
    LineEnd { bytes: *b"31\n ", len: 3 },
];

/// The end of the line of a segment that ends by this rule.
#[inline(always)]
fn line_end_of(rule: Rule) -> LineEnd
    ensures text { take result.len result.bytes ≡ label_of rule ++ 10 ∷ [] }
    ensures few { result.len ≤ 4 }
{
    LINE_ENDS[rule as usize]
}
