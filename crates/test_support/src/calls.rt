//! Calls for tests, without their contracts. A test only proves that it is safe and returns, so it needs no facts about
//! them; without these facts a check takes a fraction of the time.

use lbk_feed::Source;
use lbk_notation::{Form, LineFault, Outcome, TestLine};
use lbk_passage::{Passage, PassageFault, Segmenter};
use lbk_rules::{Cell, CellPages, CellSource, Profile};
use lbk_ucd::{Files, Tables, UcdFault};
use std::alloc::{AllocError, Global};
use std::test::Fail;

pub fn tables_of(alloc: Global, files: Files<'_>) -> Result<Tables, UcdFault> {
    Tables::read(alloc, files)
}

pub fn pages_of(alloc: Global, tables: &Tables) -> Result<CellPages, AllocError> {
    CellPages::build(alloc, tables)
}

/// The pages of these files.
pub fn pages_by(alloc: Global, files: Files<'_>) -> Result<CellPages, Fail> {
    let tables = tables_of(alloc, files)?;
    Ok(pages_of(alloc, &tables)?)
}

pub fn cell_of<C: CellSource>(source: &C, c: char) -> Cell {
    source.cell(c)
}

pub fn segmenter_of<C: CellSource>(
    alloc: Global,
    cells: &C,
    limit: u32,
    profile: Profile,
) -> Result<Segmenter<'_, C>, PassageFault> {
    Segmenter::new(alloc, cells, limit, profile)
}

pub fn next_passage<'a, R: Source, C: CellSource>(
    segmenter: &'a mut Segmenter<'_, C>,
    reader: &mut R,
) -> Result<Option<Passage<'a>>, PassageFault> {
    segmenter.next(reader)
}

pub fn read_line(alloc: Global, bytes: &[u8], form: Form) -> Result<Option<TestLine>, LineFault> {
    lbk_notation::read_line(alloc, bytes, form)
}

pub fn write_line(alloc: Global, line: &TestLine, form: Form) -> Result<Vec<u8>, AllocError> {
    lbk_notation::write_line(alloc, line, form)
}

pub fn mark_text<C: CellSource>(
    alloc: Global,
    cells: &C,
    text: &str,
    profile: Profile,
) -> Result<TestLine, AllocError> {
    lbk_notation::mark_text(alloc, cells, text, profile)
}

pub fn replay_line<C: CellSource>(
    cells: &C,
    line: &TestLine,
    form: Form,
    profile: Profile,
) -> Outcome {
    lbk_notation::replay_line(cells, line, form, profile)
}
