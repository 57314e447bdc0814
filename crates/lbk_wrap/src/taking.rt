//! A line that has not ended takes a segment.

ghost use Rattle.std.specs.Prelude.{◌≡◌, ◌+◌, ◌<◌, ◌^◌, ◌++◌, true, length, IfOk};
ghost use Rattle.std.specs.List.{concat};
ghost use Rattle.unicode_segmentation.specs.Grapheme.{graphemes};
ghost use Rattle.lbk_wrap.specs.Lines.{Part};
ghost use Rattle.lbk_wrap.specs.Steps.{IsSmall, cut_on, end_if, fits_as, grown, has_room_as, take, take_alone, Gives};

use crate::layout::Layout;
use crate::measures::is_blank;
use crate::open::{Line, LineKind, Open};
use std::alloc::AllocError;
use unicode_segmentation::UnicodeSegmentation;

/// Whether a line has room for the segment that it grew by.
#[tactic(auto, unfolding(crate::specs::Steps::fits_as))]
fn fits(layout: &Layout, line: Open, grown: Open, must: bool) -> bool
    requires { IsSmall grown × (grown.next < 2 ^ 32) }
    ensures { result ≡ fits_as layout.now line grown must }
{
    let hyphen = usize::from(grown.soft && !must);
    grown.end <= line.next || grown.columns + hyphen <= layout.columns()
}

/// Whether a line has room for the cluster that it grew by.
#[tactic(auto, unfolding(crate::specs::Steps::has_room_as))]
fn has_room(layout: &Layout, line: Open, grown: Open, cluster: &str) -> bool
    ensures { result ≡ has_room_as layout.now line grown cluster.now }
{
    is_blank(cluster) || line.next <= line.start || grown.column <= layout.columns()
}

/// Takes a segment, and puts the lines that end after those in the list. Returns the line that has not ended.
pub(crate) fn take(
    layout: &Layout,
    line: Open,
    part: &str,
    must: bool,
    lines: &mut Vec<Line>,
) -> Result<Open, AllocError>
    requires small { IsSmall line }
    requires room { line.next + length part.now < 2 ^ 32 }
    ensures taken { IfOk result (λ next. Gives lines.old.items lines.new.items next
        (end_if must (take layout.now line (record { clusters = graphemes true part.now; must = must })))) }
    ensures small { IfOk result IsSmall }
    ensures next { IfOk result (λ next. next.next ≡ line.next + length part.now) }
{
    let next = take_segment(layout, line, part, must, lines)?;
    if !must {
        return Ok(next);
    }
    lines.push(next.ended(LineKind::Must))?;
    Ok(Open::at(next.next))
}

/// The same where the line does not end after the segment.
fn take_segment(
    layout: &Layout,
    line: Open,
    part: &str,
    must: bool,
    lines: &mut Vec<Line>,
) -> Result<Open, AllocError>
    requires small { IsSmall line }
    requires room { line.next + length part.now < 2 ^ 32 }
    ensures taken { IfOk result (λ next. Gives lines.old.items lines.new.items next
        (take layout.now line (record { clusters = graphemes true part.now; must = must }))) }
    ensures small { IfOk result IsSmall }
    ensures next { IfOk result (λ next. next.next ≡ line.next + length part.now) }
{
    let all = line.with_all(layout.tab_size(), part);
    if fits(layout, line, all, must) {
        return Ok(all);
    }
    if line.start < line.next {
        lines.push(line.ended(LineKind::May))?;
    }
    take_alone(layout, line.next, part, lines)
}

/// Takes a segment on a line of its own, which begins at `at`.
fn take_alone(
    layout: &Layout,
    at: usize,
    part: &str,
    lines: &mut Vec<Line>,
) -> Result<Open, AllocError>
    requires { at + length part.now < 2 ^ 32 }
    ensures taken { IfOk result (λ next. Gives lines.old.items lines.new.items next
        (take_alone layout.now at (graphemes true part.now))) }
    ensures small { IfOk result IsSmall }
    ensures next { IfOk result (λ next. next.next ≡ at + length part.now) }
{
    let line = Open::at(at);
    if layout.is_whole() {
        return Ok(line.with_all(layout.tab_size(), part));
    }
    cut(layout, line, part, lines)
}

/// Takes the clusters of a segment one by one. The line ends before each that it has no room for.
fn cut(layout: &Layout, line: Open, part: &str, lines: &mut Vec<Line>) -> Result<Open, AllocError>
    requires small { IsSmall line }
    requires room { line.next + length part.now < 2 ^ 32 }
    ensures taken { IfOk result (λ next. Gives lines.old.items lines.new.items next
        (cut_on layout.now line (graphemes true part.now))) }
    ensures small { IfOk result IsSmall }
    ensures next { IfOk result (λ next. next.next ≡ line.next + length part.now) }
{
    let tab = layout.tab_size();
    let mut line = line;
    for cluster in part.graphemes(true) {
        let grown = line.with(tab, cluster);
        if has_room(layout, line, grown, cluster) {
            line = grown;
        } else {
            lines.push(line.ended(LineKind::Cut))?;
            line = Open::at(line.next).with(tab, cluster);
        }
    }
    Ok(line)
}
