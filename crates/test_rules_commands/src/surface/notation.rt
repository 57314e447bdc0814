//! What `lbk_notation` exports: reading, writing and replaying lines of break tests.

use crate::calls::{must, same};
use lbk_cmd::SAMPLE_FILES;
use lbk_feed::devices::{MemorySink, MemorySource};
use lbk_feed::{Sink, Source};
use lbk_notation::{Form, LineFault, Mark, Outcome, ReplayFault, Report, TestLine, replay};
use lbk_rules::{CellPages, CellSource, Kind, Profile, Rule, Verdict};
use std::alloc::Global;
use std::process::Abort;
use std::test::Fail;
use test_support::calls::{mark_text, pages_by, read_line, replay_line, write_line};

/// Each value: one more or less is an error here.
fn values(
    line_fault: LineFault,
    replay_fault: ReplayFault,
    mark: Mark,
    form: Form,
    outcome: Outcome,
) {
    match line_fault {
        LineFault::LineTooLong | LineFault::Memory | LineFault::Bad { at: _ } => {}
    }
    match replay_fault {
        ReplayFault::Read | ReplayFault::Write | ReplayFault::Memory | ReplayFault::StreamTooLong =>
            {}
    }
    match mark {
        Mark::No | Mark::May | Mark::Must => {}
    }
    match form {
        Form::Plain | Form::Kinds => {}
    }
    match outcome {
        Outcome::Agree
        | Outcome::Differ {
            position: _,
            file: _,
            rules: _,
        } => {}
    }
}

/// An outcome of these types.
const DIFFER: Outcome = Outcome::Differ {
    position: POSITION,
    file: Mark::May,
    rules: Verdict {
        kind: Kind::No,
        rule: Rule::Lb2,
    },
};

const POSITION: usize = 0;

fn replayed<R: Source, W: Sink, C: CellSource>(
    alloc: Global,
    (cells, form, profile): (&C, Form, Profile),
    reader: &mut R,
    writer: &mut W,
) -> Result<Report, ReplayFault> {
    replay(alloc, reader, writer, cells, form, profile)
}

fn made(scalars: Vec<char>, marks: Vec<Mark>) -> Option<TestLine> {
    TestLine::new(scalars, marks)
}

/// A line that is read again, one that agrees and one that differs.
fn check_line(rt: &impl Abort, alloc: Global, cells: &CellPages, line: &TestLine) {
    let text: Vec<u8> = must(rt, write_line(alloc, line, Form::Plain));
    let again: Option<TestLine> = must(rt, read_line(alloc, text.as_slice(), Form::Plain));
    assert!(rt; again.is_some());
    let outcome: Outcome = replay_line(cells, line, Form::Kinds, Profile::First);
    same(rt, &outcome, &Outcome::Agree, &"a line");
}

fn check_difference(rt: &impl Abort, alloc: Global, cells: &CellPages) {
    let read = must(rt, read_line(alloc, "÷ 0061 ÷".as_bytes(), Form::Plain));
    let line = must(rt, read.ok_or("a blank line"));
    let outcome = replay_line(cells, &line, Form::Plain, Profile::First);
    same(rt, &outcome, &DIFFER, &"a line");
}

#[test]
fn lines(rt: HostRuntime) -> Result<(), Fail> {
    let cells: CellPages = pages_by(rt.alloc(), SAMPLE_FILES)?;
    let line: TestLine = must(&rt, mark_text(rt.alloc(), &cells, "ab", Profile::First));
    let scalars: &[char] = line.scalars();
    let marks: &[Mark] = line.marks();
    assert!(&rt; scalars.len() == 2 && marks.len() == 3);
    check_line(&rt, rt.alloc(), &cells, &line);
    check_difference(&rt, rt.alloc(), &cells);
    Ok(())
}

#[test]
fn refused_lines(rt: HostRuntime) {
    let bad = read_line(rt.alloc(), "× D800 ÷".as_bytes(), Form::Plain).err();
    let at: u32 = 7;
    same(&rt, &bad, &Some(LineFault::Bad { at }), &"a surrogate");
    assert!(&rt; made(Vec::new(rt.alloc()), Vec::new(rt.alloc())).is_none());
}

#[test]
fn files(rt: HostRuntime) -> Result<(), Fail> {
    let cells: CellPages = pages_by(rt.alloc(), SAMPLE_FILES)?;
    let mut reader = MemorySource::new("÷ 0061 ÷\n".as_bytes());
    let mut writer = must(&rt, MemorySink::new(rt.alloc(), 64));
    let setting = (&cells, Form::Plain, Profile::First);
    let found: Report = must(&rt, replayed(rt.alloc(), setting, &mut reader, &mut writer));
    let [lines, agreed, differed, refused]: [u32; 4] = [1, 0, 1, 0];
    let want = Report {
        lines,
        agreed,
        differed,
        refused,
    };
    same(&rt, &found, &want, &"a line that differs");
    Ok(())
}
