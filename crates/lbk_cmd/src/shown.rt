//! The line that `show` writes for a passage.

ghost use Rattle.std.specs.Prelude.{◌≡◌, ◌+◌, ◌<◌, ◌++◌, ◌∷◌, [], length, OnOk};
ghost use Rattle.std.specs.Option.{ForSome};
ghost use Rattle.std.specs.Str.{chars};
ghost use Rattle.lbk_notation.specs.Shown.{passage_line};
ghost use Rattle.lbk_passage.specs.Marks.{marks, ended};
ghost use Rattle.lbk_passage.specs.Adding.{Adds};
ghost use Rattle.lbk_rules.specs.Answers.{written};
ghost use Rattle.lbk_values.specs.declared.profile.Profile.TheVariants.{First, Second};
ghost use Rattle.lbk_cmd.specs.Show.{verdicts_of};
ghost use Rattle.lbk_cmd.specs.Deciding.{IsPassageText, placed};

use lbk_notation::push_passage_line;
use lbk_rules::{CellSource, Kind, Profile, Rule, Stepper, Verdict, rows_of, step_at, verdict_of};
use std::alloc::AllocError;

/// Replaces the list by the verdicts of all positions of a passage: those of its text as a separate text, the last
/// being `end` (UAX #14, section 6). If memory could not grow, the list has some of them.
pub fn decide<C: CellSource>(
    cells: &C,
    profile: Profile,
    text: &str,
    end: Verdict,
    verdicts: &mut Vec<Verdict>,
) -> Result<(), AllocError>
    requires { IsPassageText text.now }
    ensures verdicts { OnOk result (verdicts.new.items
        ≡ verdicts_of (ended end (marks profile (C.cell_of cells.now) (chars text.now)))) }
    ensures many { OnOk result (length verdicts.new.items ≡ length (chars text.now) + 1) }
{
    match profile {
        Profile::First => decide_at_once(cells, text, end, verdicts),
        Profile::Second => decide_late(cells, text, end, verdicts),
    }
}

/// Does so in the first profile, where each step decides the position before its scalar. It stands apart, so that all it
/// has stays in registers.
#[inline(never)]
fn decide_at_once<C: CellSource>(
    cells: &C,
    text: &str,
    end: Verdict,
    verdicts: &mut Vec<Verdict>,
) -> Result<(), AllocError>
    requires { IsPassageText text.now }
    ensures { OnOk result (verdicts.new.items
        ≡ verdicts_of (ended end (marks First (C.cell_of cells.now) (chars text.now)))) }
{
    verdicts.clear();
    let steps = rows_of(Profile::First);
    let mut row = 0;
    for c in text.chars() {
        let step = step_at(steps, row, cells.kind(c));
        verdicts.push(verdict_of(step.shown))?;
        row = step.next as usize;
    }
    verdicts.push(end)?;
    Ok(())
}

/// Does so in the second profile, where a position may be held.
fn decide_late<C: CellSource>(
    cells: &C,
    text: &str,
    end: Verdict,
    verdicts: &mut Vec<Verdict>,
) -> Result<(), AllocError>
    requires { IsPassageText text.now }
    ensures { OnOk result (verdicts.new.items
        ≡ verdicts_of (ended end (marks Second (C.cell_of cells.now) (chars text.now)))) }
{
    verdicts.clear();
    let mut stepper = Stepper::start(cells, Profile::Second);
    for c in text.chars() {
        let out = stepper.step(c);
        place(verdicts, out.late);
        verdicts.push(now_or_none(out.now))?;
    }
    place(verdicts, stepper.finish().late);
    verdicts.push(end)?;
    Ok(())
}

/// Writes the verdict of the held position, once it is known.
fn place(verdicts: &mut Vec<Verdict>, late: Option<(u64, Verdict)>)
    requires { ForSome late (λ answer. answer.0 < length verdicts.old.items) }
    ensures { verdicts.new.items ≡ written late verdicts.old.items }
{
    if let Some((position, verdict)) = late {
        verdicts[position as usize] = verdict;
    }
}

/// The verdict of a position; a held one has a placeholder until its verdict is known.
fn now_or_none(now: Option<Verdict>) -> Verdict
    ensures { result ≡ placed now }
{
    now.unwrap_or(Verdict {
        kind: Kind::No,
        rule: Rule::Lb15b,
    })
}

/// Appends the line of a passage to `out`, with its line end. After an error some of it may be appended.
pub fn push_shown(out: &mut Vec<u8>, text: &str, verdicts: &[Verdict]) -> Result<(), AllocError>
    requires { length verdicts.now ≡ length (chars text.now) + 1 }
    ensures { Adds out.old.items out.new.items (passage_line (chars text.now) verdicts.now ++ 10 ∷ []) result }
{
    push_passage_line(out, text, verdicts)?;
    out.push(b'\n')?;
    Ok(())
}
