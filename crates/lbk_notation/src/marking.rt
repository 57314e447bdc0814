//! The verdicts of the rules for a text, as a line of the notation.

ghost use Rattle.std.specs.Prelude.{◌≡◌, ◌+◌, ◌<◌, ℕ, length, map, IfOk};
ghost use Rattle.std.specs.Option.{ForSome};
ghost use Rattle.std.specs.Str.{chars};
ghost use Rattle.lbk_notation.specs.Marked.{mark_of, marks_in, marked_text};
ghost use Rattle.lbk_notation.specs.Put.{put, mark_now};

use super::marks::Mark;
use super::test_line::TestLine;
use lbk_rules::{CellSource, Kind, Profile, Stepper, Verdict};
use std::alloc::{AllocError, Global};

/// The scalars of a text, and the rules' verdict at each position (UAX #14, section 6). Returns an error if memory
/// could not grow.
pub fn mark_text<C: CellSource>(
    alloc: Global,
    cells: &C,
    text: &str,
    profile: Profile,
) -> Result<TestLine, AllocError>
    ensures { IfOk result (λ line. line ≡ marked_text (C.cell_of cells.now) profile text.now) }
{
    let scalars = scalars_of(alloc, text)?;
    let marks = marks_of(alloc, cells, &scalars, profile)?;
    Ok(TestLine::of(scalars, marks))
}

fn scalars_of(alloc: Global, text: &str) -> Result<Vec<char>, AllocError>
    ensures { IfOk result (λ scalars. scalars.items ≡ chars text.now) }
{
    text.chars().collect(alloc)
}

/// The marks of all positions. The stepper keeps what it needs of earlier scalars.
fn marks_of<C: CellSource>(
    alloc: Global,
    source: &C,
    scalars: &[char],
    profile: Profile,
) -> Result<Vec<Mark>, AllocError>
    ensures marks { IfOk result (λ marks. marks.items ≡ marks_in profile (map (C.cell_of source.now) scalars.now)) }
    ensures many { IfOk result (λ marks. length marks.items ≡ length scalars.now + 1) }
{
    let mut marks = Vec::with_capacity(alloc, scalars.len() + 1)?;
    let mut stepper = Stepper::start(source, profile);
    for scalar in scalars {
        let out = stepper.step(*scalar);
        put_late(&mut marks, out.late);
        marks.push(mark_now(out.now))?;
    }
    let end = stepper.finish();
    put_late(&mut marks, end.late);
    marks.push(mark_of(end.end.kind))?;
    Ok(marks)
}

/// Writes the mark of a held position once its verdict is known.
fn put_late(marks: &mut Vec<Mark>, late: Option<(u64, Verdict)>)
    requires { ForSome late (λ answer. answer.0 < length marks.old.items) }
    ensures { marks.new.items ≡ put late marks.old.items }
{
    if let Some((position, verdict)) = late {
        marks[position as usize] = mark_of(verdict.kind);
    }
}

/// The mark of a verdict; a held position has a placeholder until its verdict is known.
fn mark_now(now: Option<Verdict>) -> Mark
    ensures { result ≡ mark_now now }
{
    match now {
        Some(verdict) => mark_of(verdict.kind),
        None => Mark::No,
    }
}

/// The mark of a position whose verdict is of this kind.
pub fn mark_of(kind: Kind) -> Mark
    ensures { result ≡ mark_of kind }
{
    match kind {
        Kind::No => Mark::No,
        Kind::May => Mark::May,
        Kind::Must => Mark::Must,
    }
}
