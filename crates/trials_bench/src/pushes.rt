//! The calls of the notation that append to a text: `push_line`, `push_scalar`, `push_mark` and `push_passage_line`.
//! The earlier text stays, and after a refusal a prefix of the addition follows.

use crate::counting::{begin, end};
use crate::inputs::{Input, verdicts_of};
use crate::told::answer_told;
use lbk_notation::{Form, Mark, TestLine, push_line, push_mark, push_passage_line, push_scalar};
use lbk_rules::Verdict;
use std::alloc::{AllocError, Global};

/// A text without room for more.
fn before(alloc: Global) -> Result<Vec<u8>, AllocError> {
    Vec::from_slice(alloc, b"before ")
}

pub fn line(alloc: Global, input: &Input<'_>) -> Result<String, AllocError> {
    let line = input.line(alloc)?;
    line_of(alloc, &line, input.form)
}

fn line_of(alloc: Global, line: &TestLine, form: Form) -> Result<String, AllocError> {
    let mut out = before(alloc)?;
    begin(alloc);
    let answer = push_line(&mut out, line.scalars(), line.marks(), form);
    end(alloc);
    answer_told(alloc, &answer, &out)
}

pub fn passage_line(alloc: Global, input: &Input<'_>) -> Result<String, AllocError> {
    let cells = input.cell_list(alloc)?;
    let verdicts = verdicts_of(alloc, &cells, input.profile)?;
    passage_line_of(alloc, input.text(), &verdicts)
}

fn passage_line_of(alloc: Global, text: &str, verdicts: &[Verdict]) -> Result<String, AllocError> {
    let mut out = before(alloc)?;
    begin(alloc);
    let answer = if verdicts.len() == text.chars().count() + 1 {
        push_passage_line(&mut out, text, verdicts)
    } else {
        Ok(())
    };
    end(alloc);
    answer_told(alloc, &answer, &out)
}

pub fn scalar(alloc: Global, c: char, form: Form) -> Result<String, AllocError> {
    let mut out = before(alloc)?;
    begin(alloc);
    let answer = push_scalar(&mut out, c, Mark::Must, form);
    end(alloc);
    answer_told(alloc, &answer, &out)
}

pub fn mark(alloc: Global, mark: Mark, form: Form) -> Result<String, AllocError> {
    let mut out = before(alloc)?;
    begin(alloc);
    let answer = push_mark(&mut out, mark, form);
    end(alloc);
    answer_told(alloc, &answer, &out)
}
