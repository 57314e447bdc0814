//! The machines agree with the evaluator on every short list of cells.

use crate::calls::{decided, late_step, same, start_late, step, step_over, stepper};
use lbk_cmd::SAMPLE_FILES;
use lbk_rules::{Cell, CellPages, Class, Machine, Profile, Quote, Verdict};
use std::process::Abort;
use std::test::Fail;
use test_support::calls::cell_of;
use test_support::cells::{mark, pictograph, plain, wide};
use test_support::triples::{
    Scalar, cells_of_three, pages_of_each_once, pages_with, texts_of_three, triples,
};

/// The verdicts so far, by their positions.
type Answers = [Option<Verdict>; 4];

/// Adds a verdict, the first of its position.
fn add(rt: &impl Abort, answers: &mut Answers, position: u64, verdict: Verdict) {
    assert!(rt; position < 4, "position {position}");
    let slot = &mut answers[position as usize];
    assert!(rt; slot.is_none(), "twice at position {position}");
    *slot = Some(verdict);
}

fn add_late(rt: &impl Abort, answers: &mut Answers, late: Option<(u64, Verdict)>) {
    if let Some((position, verdict)) = late {
        add(rt, answers, position, verdict);
    }
}

/// The verdicts of the late machine over the cells of a text, once for each position. A stepper over its scalars has to
/// return the same at each step.
fn late_answers(
    rt: &impl Abort,
    pages: &CellPages,
    profile: Profile,
    text: &[Scalar; 3],
) -> Answers {
    let mut machine = start_late(profile);
    let mut stepper = stepper(pages, profile);
    let mut answers = [None; 4];
    for (k, (c, cell)) in text.iter().enumerate() {
        let position = k as u64;
        let out = late_step(rt, &mut machine, position, *cell);
        same(rt, &step_over(&mut stepper, *c), &out, text);
        add_late(rt, &mut answers, out.late);
        if let Some(verdict) = out.now {
            add(rt, &mut answers, position, verdict);
        }
    }
    let end = machine.finish();
    same(rt, &stepper.finish(), &end, text);
    add_late(rt, &mut answers, end.late);
    add(rt, &mut answers, 3, end.end);
    answers
}

/// The verdicts of the machine of the first profile.
fn answers_of_first(cells: &[Cell; 3]) -> Answers {
    let mut machine = Machine::start();
    let [first, second, third] = *cells;
    let before_first = step(&mut machine, first);
    let before_second = step(&mut machine, second);
    let before_third = step(&mut machine, third);
    [
        Some(before_first),
        Some(before_second),
        Some(before_third),
        Some(machine.finish()),
    ]
}

/// Compares the verdicts of machines with those of the evaluator.
fn check_answers(rt: &impl Abort, profile: Profile, cells: &[Cell; 3], answers: &Answers) {
    for (k, answer) in answers.iter().enumerate() {
        same(rt, answer, &Some(decided(rt, profile, cells, k)), cells);
    }
}

fn check_text(rt: &impl Abort, pages: &CellPages, text: &[Scalar; 3]) {
    let cells = cells_of_three(text);
    check_answers(rt, Profile::First, &cells, &answers_of_first(&cells));
    let late = late_answers(rt, pages, Profile::First, text);
    check_answers(rt, Profile::First, &cells, &late);
    let late = late_answers(rt, pages, Profile::Second, text);
    check_answers(rt, Profile::Second, &cells, &late);
}

#[test]
fn machines(rt: HostRuntime) -> Result<(), Fail> {
    let pages = pages_of_each_once(rt.alloc())?;
    for text in &texts_of_three(rt.alloc())? {
        check_text(&rt, &pages, text);
    }
    Ok(())
}

/// Scalars of the sample files, with normal cells: those without a flag, and those with one.
fn sample_scalars() -> [Scalar; 15] {
    [
        ('\0', plain(Class::Alphabetic)),
        ('a', plain(Class::Alphabetic)),
        (' ', plain(Class::Space)),
        (',', plain(Class::InfixNumeric)),
        ('(', plain(Class::OpenPunctuation)),
        ('"', plain(Class::Quotation)),
        ('\u{4E00}', plain(Class::Ideographic)),
        ('\u{1F3FB}', plain(Class::EModifier)),
        ('\u{1F466}', plain(Class::EBase)),
        ('\u{1FB00}', plain(Class::Alphabetic)),
        ('\u{10FFFF}', plain(Class::Alphabetic)),
        ('\u{FF08}', wide(Class::OpenPunctuation)),
        ('\u{2018}', mark(Quote::Initial)),
        ('\u{2019}', mark(Quote::Final)),
        ('\u{1FAFF}', pictograph()),
    ]
}

// Properties that no rule uses, such as the width of an ideograph, change no result.
#[test]
fn stepper_asks_what_rules_ask(rt: HostRuntime) -> Result<(), Fail> {
    let pages = pages_with(rt.alloc(), SAMPLE_FILES, &[])?;
    assert!(&rt; cell_of(&pages, 'a') != plain(Class::Alphabetic));
    for text in &triples(rt.alloc(), &sample_scalars())? {
        let _ = late_answers(&rt, &pages, Profile::First, text);
        let _ = late_answers(&rt, &pages, Profile::Second, text);
    }
    Ok(())
}
