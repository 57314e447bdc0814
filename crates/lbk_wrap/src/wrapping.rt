//! The lines of a text, and the text with its lines broken.

ghost use Rattle.std.specs.Prelude.{◌≡◌, ◌+◌, ◌<◌, ◌^◌, ◌++◌, ◌≤◌, ℕ, length, IfOk};
ghost use Rattle.std.specs.Str.{IsCharBoundary};
ghost use Rattle.lbk_passage.specs.Passages.{is_must};
ghost use Rattle.lbk_wrap.specs.Orders.{AreInARow};
ghost use Rattle.lbk_wrap.specs.Lines.{lines, text_to};

use crate::layout::Layout;
use crate::open::{Line, Open};
use crate::taking::take;
use lbk_passage::Segment;
use lbk_rules::Kind;
use std::alloc::{AllocError, Global};

/// The lines of a text that is cut into these segments, as the text of a passage is. Each goes on from the end of the
/// one before it; what has its end before that, or inside a character, is no segment of the text, and nothing of it is
/// taken.
pub fn lines(
    alloc: Global,
    layout: &Layout,
    text: &str,
    segments: &[Segment],
) -> Result<Vec<Line>, AllocError>
    requires few { length text.now < 2 ^ 32 }
    ensures lines { IfOk result (λ found. found.items ≡ lines layout.now text.now segments.now) }
    ensures in_a_row { IfOk result (λ found. (end : ℕ) × (end ≤ length text.now) × AreInARow 0 end found.items) }
{
    let mut found = Vec::new(alloc);
    let mut line = Open::at(0);
    for segment in segments {
        let part = part_to(text, line.next, segment.end as usize);
        line = take(layout, line, part, must_end(segment), &mut found)?;
    }
    Ok(found)
}

/// Whether a line must end after a segment.
fn must_end(segment: &Segment) -> bool
    ensures { result ≡ is_must segment.now.kind }
{
    matches!(segment.kind, Kind::Must)
}

/// The text from one byte to another, and nothing of it where these are no two places of it in their order.
#[tactic(auto, using(crate::proofs::Parts::is_place), unfolding(crate::specs::Lines::text_to))]
fn part_to(text: &str, at: usize, end: usize) -> &str
    requires { IsCharBoundary text.now at }
    ensures part { result.now ≡ text_to text.now at end }
    ensures next { IsCharBoundary text.now (at + length result.now) }
{
    if at <= end && text.is_char_boundary(end) {
        &text[at..end]
    } else {
        ""
    }
}
