//! The verdicts at the positions of texts with the sample files: by the evaluator in both profiles, and by the
//! machines.

use crate::calls::{Setting, decided, late_step, must, same, start_late, step_over, stepper};
use lbk_cmd::SAMPLE_FILES;
use lbk_rules::{Cell, CellSource, Kind, Profile, Rule, Verdict, decide_all, decide_all_in};
use std::alloc::{AllocError, Global};
use std::fmt::Write;
use std::process::Abort;
use std::test::Fail;
use test_support::calls::{pages_by, tables_of};
use test_support::cells::cells_of;
use test_support::property_files::line_break_alone;
use test_support::texts::{FIRST, SECOND, STEPS};

/// A text, and its labels.
type Row = (&'static str, &'static str);

/// The kinds and rules of a text in each profile, the same except at the position before its quotation mark.
static KINDS_FIRST: [Row; 1] = [("a \u{2019}\u{301},", "×2 ×7 ÷18 ×9 ×13 !3")];

static KINDS_SECOND: [Row; 1] = [("a \u{2019}\u{301},", "×2 ×7 ×15b ×9 ×13 !3")];

/// The labels of verdicts, each after the sign of its kind if the row begins with one.
fn told(alloc: Global, verdicts: &[Verdict], signs: bool) -> Result<String, AllocError> {
    let mut told = String::new(alloc);
    for verdict in verdicts {
        if !told.is_empty() {
            told.push(' ')?;
        }
        if signs {
            told.push(sign(verdict.kind))?;
        }
        told.push_str(verdict.rule.label())?;
    }
    Ok(told)
}

fn sign(kind: Kind) -> char {
    match kind {
        Kind::No => '×',
        Kind::May => '÷',
        Kind::Must => '!',
    }
}

const BLANK: Verdict = Verdict {
    kind: Kind::Must,
    rule: Rule::Lb31,
};

/// The verdicts of the machine of the first profile.
fn by_machine(alloc: Global, cells: &[Cell]) -> Result<Vec<Verdict>, AllocError> {
    let mut verdicts = vec![in alloc; BLANK; cells.len() + 1]?;
    decide_all(cells, &mut verdicts);
    Ok(verdicts)
}

/// Those of the late machine, and how many it says that it wrote.
fn by_late_machine(
    alloc: Global,
    profile: Profile,
    cells: &[Cell],
) -> Result<(Vec<Verdict>, usize), AllocError> {
    let mut verdicts = vec![in alloc; BLANK; cells.len() + 1]?;
    let count = decide_all_in(profile, cells, &mut verdicts);
    Ok((verdicts, count))
}

/// Compares the verdicts at the positions of some cells with those of their row: by the late machine, by the
/// evaluators, and, in the first profile, by its machine.
fn check_verdicts<C: CellSource>(
    rt: &impl Abort,
    setting: &Setting<'_, C>,
    cells: &[Cell],
    (text, want): Row,
) {
    let profile = setting.profile;
    let (verdicts, count) = must(rt, by_late_machine(setting.alloc, profile, cells));
    same(rt, &count, &verdicts.len(), &text);
    for (k, verdict) in verdicts.iter().enumerate() {
        same(rt, &decided(rt, profile, cells, k), verdict, &text);
    }
    if profile == Profile::First {
        check_machine(rt, setting.alloc, cells, &verdicts);
    }
    let found = must(rt, told(setting.alloc, &verdicts, want.starts_with('×')));
    same(rt, &found.as_str(), &want, &text);
}

/// Compares the verdicts of the machine of the first profile with those of the others.
fn check_machine(rt: &impl Abort, alloc: Global, cells: &[Cell], want: &[Verdict]) {
    let found = must(rt, by_machine(alloc, cells));
    same(rt, &found.as_slice(), &want, &"the machine");
}

/// Adds what a step or the end returns, in the notation of `STEPS`.
fn push_answers(
    steps: &mut String,
    now: Option<Verdict>,
    late: Option<(u64, Verdict)>,
) -> Result<(), AllocError> {
    if !steps.is_empty() {
        steps.push(' ')?;
    }
    match now {
        None => steps.push('-')?,
        Some(verdict) => steps.push_str(verdict.rule.label())?,
    }
    if let Some((position, verdict)) = late {
        write!(steps, ",{position}:")?;
        steps.push_str(verdict.rule.label())?;
    }
    Ok(())
}

/// Compares the steps of the late machine over some cells with those of their row, and with those of a stepper over the
/// text.
fn check_steps<C: CellSource>(
    rt: &impl Abort,
    setting: &Setting<'_, C>,
    cells: &[Cell],
    (text, want): Row,
) {
    let mut steps = String::new(setting.alloc);
    let mut machine = start_late(setting.profile);
    let mut stepper = stepper(setting.source, setting.profile);
    for (c, cell) in text.chars().zip(cells) {
        let taken = machine.steps();
        let out = late_step(rt, &mut machine, taken, *cell);
        same(rt, &step_over(&mut stepper, c), &out, &text);
        must(rt, push_answers(&mut steps, out.now, out.late));
    }
    same(rt, &machine.steps(), &(cells.len() as u64), &text);
    let end = machine.finish();
    same(rt, &stepper.finish(), &end, &text);
    must(rt, push_answers(&mut steps, Some(end.end), end.late));
    same(rt, &steps.as_str(), &want, &text);
}

/// Compares the verdicts of each text with its row, or what each step returns.
fn check<C: CellSource>(rt: &impl Abort, setting: &Setting<'_, C>, by_steps: bool, rows: &[Row]) {
    for row in rows {
        let cells = must(rt, cells_of(setting.alloc, setting.source, row.0));
        if by_steps {
            check_steps(rt, setting, &cells, *row);
        } else {
            check_verdicts(rt, setting, &cells, *row);
        }
    }
}

fn check_source<C: CellSource>(rt: &impl Abort, alloc: Global, source: &C) {
    let mut setting = Setting {
        alloc,
        source,
        profile: Profile::First,
    };
    check(rt, &setting, false, &FIRST);
    check(rt, &setting, false, &KINDS_FIRST);
    check(rt, &setting, true, &FIRST);
    setting.profile = Profile::Second;
    check(rt, &setting, false, &SECOND);
    check(rt, &setting, false, &KINDS_SECOND);
    check(rt, &setting, true, &STEPS);
}

#[test]
fn sample_rows(rt: HostRuntime) -> Result<(), Fail> {
    check_source(&rt, rt.alloc(), &pages_by(rt.alloc(), SAMPLE_FILES)?);
    check_source(&rt, rt.alloc(), &tables_of(rt.alloc(), SAMPLE_FILES)?);
    Ok(())
}

#[test]
fn no_files(rt: HostRuntime) -> Result<(), Fail> {
    let tables = tables_of(rt.alloc(), line_break_alone(b""))?;
    let setting = Setting {
        alloc: rt.alloc(),
        source: &tables,
        profile: Profile::First,
    };
    check(&rt, &setting, false, &[("a ", "2 28 3")]);
    Ok(())
}
