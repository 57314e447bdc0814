//! A text with a line feed at the end of each line that was broken.

ghost use Rattle.std.specs.Prelude.{◌≡◌, ℕ, ◌<◌, ◌≤◌, ◌^◌, ◌++◌, [], ◌∷◌, length, OnErr, OnOk};
ghost use Rattle.lbk_feed.specs.Appended.{HasPut};
ghost use Rattle.lbk_passage.specs.Adding.{Adds};
ghost use Rattle.lbk_wrap.specs.Filled.{broken, filled, written};
ghost use Rattle.lbk_wrap.specs.Lines.{lines};
ghost use Rattle.lbk_wrap.specs.Orders.{AreInARow};

use crate::layout::Layout;
use crate::open::{Line, LineKind};
use crate::wrapping::lines;
use lbk_passage::Segment;
use std::alloc::{AllocError, Global};

/// Appends a text that is cut into these segments to `out`, with a line feed at the end of each line that was broken,
/// in place of its blanks unless these are kept. A line that must end is appended as it is. Of a line that was broken
/// and shows nothing only kept blanks are appended. After an error a prefix of it all may be appended.
pub fn push_filled(
    out: &mut Vec<u8>,
    alloc: Global,
    layout: &Layout,
    text: &str,
    segments: &[Segment],
    keep: bool,
) -> Result<(), AllocError>
    requires few { length text.now < 2 ^ 32 }
    ensures adds { Adds out.old.items out.new.items
        (filled text.now keep (lines layout.now text.now segments.now)) result }
    ensures refused { OnErr result (HasPut out.old.items out.new.items
        (filled text.now keep (lines layout.now text.now segments.now))) }
{
    let found = lines(alloc, layout, text, segments)?;
    push_lines(out, text.as_bytes(), found.as_slice(), keep)
}

/// Appends what is written of some lines.
fn push_lines(out: &mut Vec<u8>, text: &[u8], lines: &[Line], keep: bool) -> Result<(), AllocError>
    requires { (at end : ℕ) × (end ≤ length text.now) × AreInARow at end lines.now }
    ensures all { OnOk result (out.new.items ≡ out.old.items ++ filled text.now keep lines.now) }
    ensures refused { OnErr result (HasPut out.old.items out.new.items (filled text.now keep lines.now)) }
{
    for line in lines {
        push_line(out, text, *line, keep)?;
    }
    Ok(())
}

/// Appends what is written of a line.
fn push_line(out: &mut Vec<u8>, text: &[u8], line: Line, keep: bool) -> Result<(), AllocError>
    requires order { (line.start ≤ line.end) × (line.end ≤ line.next) }
    requires within { line.next ≤ length text.now }
    ensures all { OnOk result (out.new.items ≡ out.old.items ++ written text.now keep line) }
    ensures refused { OnErr result (HasPut out.old.items out.new.items (written text.now keep line)) }
{
    match line.kind {
        LineKind::Must => Ok(out.extend_from_slice(&text[line.start..line.next])?),
        LineKind::May => push_broken(out, text, line, keep),
        LineKind::Cut => push_broken(out, text, line, keep),
    }
}

/// Appends what is written of a line that was broken.
fn push_broken(out: &mut Vec<u8>, text: &[u8], line: Line, keep: bool) -> Result<(), AllocError>
    requires order { (line.start ≤ line.end) × (line.end ≤ line.next) }
    requires within { line.next ≤ length text.now }
    ensures all { OnOk result (out.new.items ≡ out.old.items ++ broken text.now keep line) }
    ensures refused { OnErr result (HasPut out.old.items out.new.items (broken text.now keep line)) }
{
    if keep {
        return push_with_end(out, &text[line.start..line.next]);
    }
    if line.start < line.end {
        return push_with_end(out, &text[line.start..line.end]);
    }
    Ok(())
}

/// Appends some bytes and a line feed.
fn push_with_end(out: &mut Vec<u8>, bytes: &[u8]) -> Result<(), AllocError>
    ensures all { OnOk result (out.new.items ≡ out.old.items ++ (bytes.now ++ 10 ∷ [])) }
    ensures refused { OnErr result (HasPut out.old.items out.new.items (bytes.now ++ 10 ∷ [])) }
{
    out.extend_from_slice(bytes)?;
    out.push(b'\n')?;
    Ok(())
}
