//! The line written for a passage.

ghost use Rattle.std.specs.Prelude.{◌≡◌, ◌+◌, ◌*◌, ◌≤◌, ◌++◌, ◌∷◌, drop, length, take, OnOk, OnErr};
ghost use Rattle.std.specs.Str.{IsUtf8, chars};
ghost use Rattle.std.specs.Str.Iter.{chars_rest};
ghost use Rattle.lbk_feed.specs.Appended.{HasPut};
ghost use Rattle.lbk_notation.specs.declared.marks.Form.TheVariants.{Kinds};
ghost use Rattle.lbk_notation.specs.Shown.{marks_of, passage_line, passage_marks, written_labels};
ghost use Rattle.lbk_notation.specs.Written.{written_after, written_line};
ghost use Rattle.lbk_passage.specs.Placing.{Placed, PlacedIn};
ghost use Rattle.lbk_rules.specs.Labels.{label_of};

use super::marking::mark_of;
use super::marks::Form;
use super::writing::{SCALAR, place_scalar, push_mark};
use lbk_passage::lines::place_front;
use lbk_rules::{Rule, Verdict};
use std::alloc::AllocError;
use std::str::Chars;

/// How many positions get room at once.
const POSITIONS: usize = 64;

/// Room for the label of a position, after a space.
const LABEL_ROOM: usize = 4;

/// Room for this many positions.
static ROOM: [u8; SCALAR * POSITIONS] = [b' '; SCALAR * POSITIONS];

/// Appends the line of a passage to `out`, without a line end: the marks of its positions with its scalars between
/// them, in form Kinds, a tab, `#`, and the number of the rule that decided each position, after a space. There are
/// verdicts for all positions, one more than scalars. Returns an error if memory could not grow; a prefix of the line
/// may be written then.
pub fn push_passage_line(
    out: &mut Vec<u8>,
    text: &str,
    verdicts: &[Verdict],
) -> Result<(), AllocError>
    requires { length verdicts.now ≡ length (chars text.now) + 1 }
    ensures text { OnOk result (out.new.items ≡ out.old.items ++ passage_line (chars text.now) verdicts.now) }
    ensures refused { OnErr result (HasPut out.old.items out.new.items
        (passage_line (chars text.now) verdicts.now)) }
{
    push_kinds(out, text, verdicts)?;
    out.extend_from_slice(b"\t#")?;
    push_labels(out, verdicts)
}

fn push_kinds(out: &mut Vec<u8>, text: &str, verdicts: &[Verdict]) -> Result<(), AllocError>
    requires { length verdicts.now ≡ length (chars text.now) + 1 }
    ensures text { OnOk result (out.new.items
        ≡ out.old.items ++ written_line Kinds (passage_marks (chars text.now) verdicts.now)) }
    ensures refused { OnErr result (HasPut out.old.items out.new.items
        (written_line Kinds (passage_marks (chars text.now) verdicts.now))) }
{
    push_mark(out, mark_of(verdicts[0].kind), Form::Kinds)?;
    let mut scalars = text.chars();
    for some in verdicts[1..].chunks(POSITIONS) {
        let at = out.len();
        out.extend_from_slice(&ROOM[..SCALAR * some.len()])?;
        let behind = place_scalars(out.as_mut_slice(), at, &mut scalars, some);
        out.truncate(behind);
    }
    Ok(())
}

/// Writes the next scalars, each with the mark after it, as many as there are verdicts.
fn place_scalars(buf: &mut [u8], at: usize, scalars: &mut Chars<'_>, verdicts: &[Verdict]) -> usize
    requires room { at + 16 * length verdicts.now ≤ length buf.old }
    requires utf8 { IsUtf8 (chars_rest scalars.old) }
    requires some { length verdicts.now ≤ length (chars (chars_rest scalars.old)) }
    ensures placed { Placed buf.old buf.new at
        (written_after Kinds (chars (chars_rest scalars.old)) (marks_of verdicts.now)) result }
    ensures utf8 { IsUtf8 (chars_rest scalars.new) }
    ensures rest { chars (chars_rest scalars.new) ≡ drop (length verdicts.now) (chars (chars_rest scalars.old)) }
{
    let mut behind = at;
    for verdict in verdicts {
        let Some(scalar) = scalars.next() else {
            return behind;
        };
        behind = place_scalar(buf, behind, scalar, mark_of(verdict.kind), Form::Kinds);
    }
    behind
}

fn push_labels(out: &mut Vec<u8>, verdicts: &[Verdict]) -> Result<(), AllocError>
    ensures text { OnOk result (out.new.items ≡ out.old.items ++ written_labels verdicts.now) }
    ensures refused { OnErr result (HasPut out.old.items out.new.items (written_labels verdicts.now)) }
{
    for some in verdicts.chunks(POSITIONS) {
        let at = out.len();
        out.extend_from_slice(&ROOM[..LABEL_ROOM * some.len()])?;
        let behind = place_labels(out.as_mut_slice(), at, some);
        out.truncate(behind);
    }
    Ok(())
}

/// Writes the labels of the rules of these verdicts, each after a space.
fn place_labels(buf: &mut [u8], at: usize, verdicts: &[Verdict]) -> usize
    requires { at + 4 * length verdicts.now ≤ length buf.old }
    ensures { Placed buf.old buf.new at (written_labels verdicts.now) result }
{
    let mut behind = at;
    for verdict in verdicts {
        behind = place_label(buf, behind, verdict.rule);
    }
    behind
}

/// Writes a space and the label of a rule.
#[inline(always)]
fn place_label(buf: &mut [u8], at: usize, rule: Rule) -> usize
    requires { at + 4 ≤ length buf.old }
    ensures { PlacedIn buf.old buf.new at 4 (32 ∷ label_of rule) result }
{
    let label = label_of(rule);
    place_front(buf, at, label.bytes, label.len)
}

/// A space and the label of a rule.
#[derive(Clone, Copy)]
struct Label {
    bytes: [u8; LABEL_ROOM],
    len: usize,
}

/// Those of the rules, in their order.
#[rattlefmt::skip]
static LABELS: [Label; 38] = [
    Label { bytes: *b" 2  ", len: 2 },
    Label { bytes: *b" 3  ", len: 2 },
    Label { bytes: *b" 4  ", len: 2 },
    Label { bytes: *b" 5  ", len: 2 },
    Label { bytes: *b" 6  ", len: 2 },
    Label { bytes: *b" 7  ", len: 2 },
    Label { bytes: *b" 8  ", len: 2 },
    Label { bytes: *b" 8a ", len: 3 },
    Label { bytes: *b" 9  ", len: 2 },
    Label { bytes: *b" 11 ", len: 3 },
    Label { bytes: *b" 12 ", len: 3 },
    Label { bytes: *b" 12a", len: 4 },
    Label { bytes: *b" 13 ", len: 3 },
    Label { bytes: *b" 14 ", len: 3 },
    Label { bytes: *b" 15 ", len: 3 },
    Label { bytes: *b" 15a", len: 4 },
    Label { bytes: *b" 15b", len: 4 },
    Label { bytes: *b" 16 ", len: 3 },
    Label { bytes: *b" 17 ", len: 3 },
    Label { bytes: *b" 18 ", len: 3 },
    Label { bytes: *b" 19 ", len: 3 },
    Label { bytes: *b" 20 ", len: 3 },
    Label { bytes: *b" 21 ", len: 3 },
    Label { bytes: *b" 21a", len: 4 },
    Label { bytes: *b" 21b", len: 4 },
    Label { bytes: *b" 22 ", len: 3 },
    Label { bytes: *b" 23 ", len: 3 },
    Label { bytes: *b" 23a", len: 4 },
    Label { bytes: *b" 24 ", len: 3 },
    Label { bytes: *b" 25 ", len: 3 },
    Label { bytes: *b" 26 ", len: 3 },
    Label { bytes: *b" 27 ", len: 3 },
    Label { bytes: *b" 28 ", len: 3 },
    Label { bytes: *b" 29 ", len: 3 },
    Label { bytes: *b" 30 ", len: 3 },
    Label { bytes: *b" 30a", len: 4 },
    Label { bytes: *b" 30b", len: 4 },
    Label { bytes: *b" 31 ", len: 3 },
];

/// A space and the label of a rule.
#[inline(always)]
fn label_of(rule: Rule) -> Label
    ensures text { take result.len result.bytes ≡ 32 ∷ label_of rule }
    ensures few { result.len ≤ 4 }
{
    LABELS[rule as usize]
}
