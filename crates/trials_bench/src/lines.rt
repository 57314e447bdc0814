//! `read_line`, `read_passage_line`, `read_back`, `write_line`, `mark_text`, `replay_line` and `TestLine::new`.

use crate::counting::{begin, end};
use crate::inputs::{Input, text_of};
use crate::told::{fault_told, line_told, read_told};
use lbk_notation::{Form, LineFault, Mark, TestLine, read_back, read_passage_line};
use std::alloc::{AllocError, Global};
use test_support::calls::{mark_text, read_line, replay_line, write_line};
use test_support::engines::Setting;

pub fn read(alloc: Global, input: &Input<'_>) -> Result<String, AllocError> {
    begin(alloc);
    let answer = read_line(alloc, input.bytes, input.form);
    end(alloc);
    read_told(alloc, answer)
}

pub fn read_passage(alloc: Global, input: &Input<'_>) -> Result<String, AllocError> {
    begin(alloc);
    let answer = read_passage_line(alloc, input.bytes);
    end(alloc);
    read_told(alloc, answer)
}

pub fn again(alloc: Global, input: &Input<'_>) -> Result<String, AllocError> {
    let line = input.line(alloc)?;
    begin(alloc);
    let answer = again_of(alloc, &line, input.form);
    end(alloc);
    read_told(alloc, answer)
}

/// `read_back`, without its contract.
fn again_of(alloc: Global, line: &TestLine, form: Form) -> Result<Option<TestLine>, LineFault> {
    read_back(alloc, line, form)
}

pub fn write(alloc: Global, input: &Input<'_>) -> Result<String, AllocError> {
    let line = input.line(alloc)?;
    begin(alloc);
    let answer = write_line(alloc, &line, input.form);
    end(alloc);
    match answer {
        Ok(written) => written_told(alloc, &written),
        Err(fault) => fault_told(alloc, &fault),
    }
}

fn written_told(alloc: Global, written: &[u8]) -> Result<String, AllocError> {
    let written = text_of(written);
    format!(in alloc; "Ok({written})\n")
}

pub fn mark(alloc: Global, input: &Input<'_>) -> Result<String, AllocError> {
    let text = input.text();
    begin(alloc);
    let answer = mark_text(alloc, input.cells, text, input.profile);
    end(alloc);
    match answer {
        Ok(line) => line_told(alloc, &line),
        Err(fault) => fault_told(alloc, &fault),
    }
}

/// The results of `replay_line`, which allocates nothing, for the text's line, which agrees in form Kinds, and for the
/// line without breaks, which differs in both forms.
pub fn replay(alloc: Global, input: &Input<'_>) -> Result<String, AllocError> {
    let line = input.line(alloc)?;
    let marks = vec![in alloc; Mark::No; line.marks().len()]?;
    match new_line(alloc, line.scalars(), &marks)? {
        Some(unbroken) => outcomes_told(alloc, input.setting(alloc), &line, &unbroken),
        None => String::from_str(alloc, "refused\n"),
    }
}

fn outcomes_told(
    alloc: Global,
    setting: Setting<'_>,
    line: &TestLine,
    unbroken: &TestLine,
) -> Result<String, AllocError> {
    let Setting { cells, profile, .. } = setting;
    begin(alloc);
    let agrees = replay_line(cells, line, Form::Kinds, profile);
    let kinds = replay_line(cells, unbroken, Form::Kinds, profile);
    let plain = replay_line(cells, unbroken, Form::Plain, profile);
    end(alloc);
    format!(in alloc; "{agrees:?}\n{kinds:?}\n{plain:?}\n")
}

/// What `TestLine::new` accepts and refuses, and what it lends: none of it allocates.
pub fn test_line(alloc: Global) -> Result<String, AllocError> {
    let marks = [Mark::No, Mark::May, Mark::Must];
    let has_none = new_line(alloc, &['a'], &[Mark::No])?.is_none();
    match new_line(alloc, &['a', '\u{1F466}'], &marks)? {
        Some(line) => parts_told(alloc, &line, has_none),
        None => String::from_str(alloc, "refused\n"),
    }
}

fn parts_told(alloc: Global, line: &TestLine, has_none: bool) -> Result<String, AllocError> {
    begin(alloc);
    let shown = (line.scalars(), line.marks());
    end(alloc);
    format!(in alloc; "{shown:?} {has_none}\n")
}

/// The line of these, if they make one.
fn new_line(
    alloc: Global,
    scalars: &[char],
    marks: &[Mark],
) -> Result<Option<TestLine>, AllocError> {
    let scalars = Vec::from_slice(alloc, scalars)?;
    let marks = Vec::from_slice(alloc, marks)?;
    begin(alloc);
    let line = TestLine::new(scalars, marks);
    end(alloc);
    Ok(line)
}
