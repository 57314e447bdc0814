//! Compares a line of a break test with the rules.

ghost use Rattle.std.specs.Prelude.{◌≡◌, ◌<◌, length, MatchOption};
ghost use Rattle.std.specs.Option.{ForSome};
ghost use Rattle.lbk_notation.specs.Met.{Meets, agrees, is_before, met};
ghost use Rattle.lbk_notation.specs.Outcome.{IsOutcome};

use super::findings::Outcome;
use super::marks::{Form, Mark};
use super::test_line::TestLine;
use lbk_rules::{CellSource, Kind, Profile, Stepper, Verdict};

/// Compares the marks of a line with the verdicts of the profile's rules for its scalars (UAX #14, section 6).
///
/// In form Kinds a mark agrees if it is the rules' kind, in form Plain if both are No or neither is. It allocates
/// nothing: it reads the line once, and keeps the first difference so far.
pub fn replay_line<C: CellSource>(
    cells: &C,
    line: &TestLine,
    form: Form,
    profile: Profile,
) -> Outcome
    ensures { IsOutcome (C.cell_of cells.now) form profile line.now result }
{
    let scalars = line.scalars();
    let marks = line.marks();
    let mut stepper = Stepper::start(cells, profile);
    let mut outcome = Outcome::Agree;
    for (position, scalar) in scalars.iter().enumerate() {
        let out = stepper.step(*scalar);
        outcome = met_late(outcome, form, marks, out.late);
        outcome = met_now(outcome, form, marks, position, out.now);
    }
    let end = stepper.finish();
    outcome = met_late(outcome, form, marks, end.late);
    met_now(outcome, form, marks, scalars.len(), Some(end.end))
}

/// Adds a late verdict, if there is one.
fn met_late(outcome: Outcome, form: Form, marks: &[Mark], late: Option<(u64, Verdict)>) -> Outcome
    requires { ForSome late (λ answer. answer.0 < length marks.now) }
    ensures { MatchOption late (result ≡ outcome) (λ answer. Meets form marks.now answer.0 answer.1 outcome result) }
{
    match late {
        None => outcome,
        Some((position, rules)) => {
            let position = position as usize;
            met(outcome, form, position, marks[position], rules)
        }
    }
}

/// Adds the verdict of this position, if there is one.
fn met_now(
    outcome: Outcome,
    form: Form,
    marks: &[Mark],
    position: usize,
    now: Option<Verdict>,
) -> Outcome
    requires { position < length marks.now }
    ensures { MatchOption now (result ≡ outcome) (λ rules. Meets form marks.now position rules outcome result) }
{
    match now {
        None => outcome,
        Some(rules) => met(outcome, form, position, marks[position], rules),
    }
}

/// Adds the verdict of one more position: its difference, if it differs and no earlier position does.
fn met(outcome: Outcome, form: Form, position: usize, file: Mark, rules: Verdict) -> Outcome
    ensures { result ≡ met form outcome position file rules }
{
    if agrees(form, file, rules.kind) || is_before(outcome, position) {
        return outcome;
    }
    Outcome::Differ {
        position,
        file,
        rules,
    }
}

/// Whether an earlier position differs.
fn is_before(outcome: Outcome, position: usize) -> bool
    ensures { result ≡ is_before outcome position }
{
    match outcome {
        Outcome::Agree => false,
        Outcome::Differ { position: met, .. } => met < position,
    }
}

/// Whether a mark agrees with the rules.
fn agrees(form: Form, file: Mark, kind: Kind) -> bool
    ensures { result ≡ agrees form file kind }
{
    match (form, file, kind) {
        (_, Mark::No, Kind::No) => true,
        (_, Mark::No, _) | (_, _, Kind::No) => false,
        (Form::Plain, _, _) => true,
        (Form::Kinds, Mark::May, Kind::May) | (Form::Kinds, Mark::Must, Kind::Must) => true,
        (Form::Kinds, _, _) => false,
    }
}
