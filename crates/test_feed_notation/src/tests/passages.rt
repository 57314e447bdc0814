//! The passages of a segmenter, with cells with and without a table of steps.

use crate::tests::calls::{cut_source, must, same, sample_cells};
use crate::tests::told::push_told;
use lbk_cmd::{CmdFault, SAMPLE_FILES};
use lbk_feed::devices::MemorySource;
use lbk_passage::{Passage, Segmenter};
use lbk_rules::{CellPages, CellSource, Profile};
use lbk_ucd::Tables;
use std::alloc::{AllocError, Global};
use std::fmt::Write;
use std::process::Abort;
use test_support::calls::{next_passage, segmenter_of, tables_of};
use test_support::texts::{FIRST, SECOND};

/// Writes all that is known about the next passage, or that there is none.
fn push_next<C: CellSource>(
    seen: &mut String,
    segmenter: &mut Segmenter<'_, C>,
    source: &mut MemorySource<'_>,
) -> Result<(), CmdFault> {
    match next_passage(segmenter, source)? {
        Some(passage) => push_passage(seen, &passage)?,
        None => seen.push_str("none\n")?,
    }
    Ok(())
}

fn push_passage(seen: &mut String, passage: &Passage<'_>) -> Result<(), AllocError> {
    push_told(seen, passage)?;
    writeln!(seen, " {:?} {}", passage.end, passage.text)?;
    Ok(())
}

/// All passages of a text, and what is returned after the last.
fn passages_of<C: CellSource>(
    alloc: Global,
    cells: &C,
    profile: Profile,
    text: &str,
) -> Result<String, CmdFault> {
    let mut source = cut_source(text.as_bytes(), &[]);
    let mut segmenter = segmenter_of(alloc, cells, 65_536, profile)?;
    let mut seen = String::new(alloc);
    for _ in 0..=text.len() {
        push_next(&mut seen, &mut segmenter, &mut source)?;
    }
    Ok(seen)
}

/// The passages of a text by two sources of the same cells.
fn check_same(rt: &impl Abort, alloc: Global, tables: &Tables, pages: &CellPages, text: &str) {
    for profile in [Profile::First, Profile::Second] {
        let want = must(rt, passages_of(alloc, tables, profile, text));
        let found = must(rt, passages_of(alloc, pages, profile, text));
        same(rt, &found.as_str(), &want.as_str(), &text);
    }
}

fn check_rows(
    rt: &impl Abort,
    alloc: Global,
    tables: &Tables,
    pages: &CellPages,
    rows: &[(&str, &str)],
) {
    for (text, _) in rows {
        check_same(rt, alloc, tables, pages, text);
    }
}

/// Tables look up each property of a scalar, and pages keep kinds: both give the same passages.
#[test]
fn passages_by_tables_and_by_pages(rt: HostRuntime) {
    let tables = must(&rt, tables_of(rt.alloc(), SAMPLE_FILES));
    let pages = sample_cells(&rt, rt.alloc());
    check_rows(&rt, rt.alloc(), &tables, &pages, &FIRST);
    check_rows(&rt, rt.alloc(), &tables, &pages, &SECOND);
}
