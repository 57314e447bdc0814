//! `Tables::read`, `CellPages::build` and `read_cells`.

use crate::counting::{begin, end};
use crate::property_files::{PropertyFiles, files_of};
use crate::told::{cells_told, fault_told};
use lbk_files::{CellsFault, read_cells};
use lbk_rules::CellPages;
use lbk_ucd::{Files, Places, Run, Tables};
use std::alloc::{AllocError, Global};
use std::fmt::Write;
use test_support::calls::{pages_of, tables_of};

const LAST_CODE: u32 = 0x10FFFF;

/// The calls.
#[derive(Clone, Copy)]
pub enum OfFiles {
    /// `Tables::read`.
    Tables,
    /// `CellPages::build`.
    Pages,
    /// `read_cells`.
    Cells,
}

/// Makes the files, makes the call, and returns its result as text.
pub fn run(alloc: Global, call: OfFiles, files: PropertyFiles) -> Result<String, AllocError> {
    let text = files.text(alloc)?;
    run_on(alloc, call, files_of(text.as_str()).0)
}

fn run_on(alloc: Global, call: OfFiles, files: Files<'_>) -> Result<String, AllocError> {
    match call {
        OfFiles::Tables => read(alloc, files),
        OfFiles::Pages => build(alloc, files),
        OfFiles::Cells => read_both(alloc, files),
    }
}

fn read(alloc: Global, files: Files<'_>) -> Result<String, AllocError> {
    begin(alloc);
    let answer = tables_of(alloc, files);
    end(alloc);
    match answer {
        Ok(tables) => tables_told(alloc, &tables),
        Err(fault) => fault_told(alloc, &fault),
    }
}

fn build(alloc: Global, files: Files<'_>) -> Result<String, AllocError> {
    match tables_of(alloc, files) {
        Ok(tables) => pages_told(alloc, &tables),
        Err(fault) => fault_told(alloc, &fault),
    }
}

fn pages_told(alloc: Global, tables: &Tables) -> Result<String, AllocError> {
    begin(alloc);
    let answer = pages_of(alloc, tables);
    end(alloc);
    match answer {
        Ok(pages) => cells_told(alloc, &pages),
        Err(fault) => fault_told(alloc, &fault),
    }
}

fn read_both(alloc: Global, files: Files<'_>) -> Result<String, AllocError> {
    begin(alloc);
    let answer = cells_by(alloc, files);
    end(alloc);
    match answer {
        Ok(pages) => cells_told(alloc, &pages),
        Err(fault) => fault_told(alloc, &fault),
    }
}

/// `read_cells`, without its contract.
fn cells_by(alloc: Global, files: Files<'_>) -> Result<CellPages, CellsFault> {
    read_cells(alloc, files)
}

/// The ranges of code points with the same properties.
fn tables_told(alloc: Global, tables: &Tables) -> Result<String, AllocError> {
    let mut told = String::from_str(alloc, "Ok\n")?;
    tell_runs(&mut told, tables)?;
    Ok(told)
}

fn tell_runs(told: &mut String, tables: &Tables) -> Result<(), AllocError> {
    let mut code = 0;
    let mut near = Places::START;
    for _ in 0..=LAST_CODE {
        if code > LAST_CODE {
            break;
        }
        let run = tables.run(code, near);
        tell_run(told, code, run)?;
        if !has_values(tables, code, run) || !has_values(tables, run.last, run) {
            told.push_str("the values of its ends differ\n")?;
        }
        code = run.last + 1;
        near = run.places;
    }
    Ok(())
}

fn tell_run(told: &mut String, first: u32, run: Run) -> Result<(), AllocError> {
    let last = run.last;
    let (line_break, east_asian, category) = (run.line_break, run.east_asian, run.category);
    let sign = if run.is_pictographic {
        " pictographic"
    } else {
        ""
    };
    writeln!(
        told,
        "{first:04X}..{last:04X} {line_break:?} {east_asian:?} {category:?}{sign}"
    )
}

/// Whether a code point has these values.
fn has_values(tables: &Tables, code: u32, run: Run) -> bool {
    code <= LAST_CODE
        && tables.line_break(code) == run.line_break
        && tables.east_asian(code) == run.east_asian
        && tables.category(code) == run.category
        && tables.is_pictographic(code) == run.is_pictographic
}
