//! Calls that allocate nothing, on their own inputs. Their inputs are made before allocations are counted; the count
//! has to be 0.

use crate::counting::{begin, end};
use crate::digest::Digest;
use crate::inputs::cells;
use crate::told::{digest_told, fault_told, told};
use crate::{devices, lines};
use lbk_cmd::Ending;
use lbk_files::SAMPLE_FILES;
use lbk_notation::Report;
use lbk_rules::{Cell, CellPages, CellSource, resolve};
use lbk_ucd::{Places, Tables};
use std::alloc::{AllocError, Global};
use test_support::calls::tables_of;

/// The calls.
#[derive(Clone, Copy)]
pub enum Quiet {
    /// `Device::new`, its `read` and `write`, `reads`, `failures`, `ended`; `write_all`.
    Device,
    /// `line_break`, `east_asian`, `category`, `is_pictographic` and `run` of `Tables`.
    LookUps,
    /// `resolve`, and `cell` of `Tables` and of `CellPages`.
    Cells,
    /// `TestLine::new`, `scalars`, `marks`.
    TestLine,
    /// `Ending::status`.
    Status,
}

impl Quiet {
    pub fn run(self, alloc: Global) -> Result<String, AllocError> {
        match self {
            Quiet::Device => devices::device(alloc),
            Quiet::LookUps | Quiet::Cells => self.run_on_tables(alloc),
            Quiet::TestLine => lines::test_line(alloc),
            Quiet::Status => status(alloc),
        }
    }

    /// Calls of the tables of the sample files.
    fn run_on_tables(self, alloc: Global) -> Result<String, AllocError> {
        match (tables_of(alloc, SAMPLE_FILES), self) {
            (Ok(tables), Quiet::LookUps) => look_ups(alloc, &tables),
            (Ok(tables), _) => both_cells(alloc, &tables),
            (Err(fault), _) => fault_told(alloc, &fault),
        }
    }
}

const LAST_CODE: u32 = 0x10FFFF;

fn look_ups(alloc: Global, tables: &Tables) -> Result<String, AllocError> {
    let mut digest = Digest::new();
    begin(alloc);
    add_look_ups(&mut digest, tables);
    end(alloc);
    digest_told(alloc, digest)
}

fn add_look_ups(digest: &mut Digest, tables: &Tables) {
    for code in 0..=LAST_CODE {
        digest.add_properties(
            tables.line_break(code),
            tables.east_asian(code),
            tables.category(code),
            tables.is_pictographic(code),
        );
        digest.add(u64::from(tables.run(code, Places::START).last));
    }
}

/// How many scalar values have the same cell by properties, tables and pages.
fn both_cells(alloc: Global, tables: &Tables) -> Result<String, AllocError> {
    let pages = cells(alloc)?;
    begin(alloc);
    let same = count_same(tables, &pages);
    end(alloc);
    told(alloc, &same)
}

fn count_same(tables: &Tables, pages: &CellPages) -> u32 {
    let mut same = 0u32;
    for c in '\0'..=char::MAX {
        if is_same(tables, pages, c) {
            same = same.saturating_add(1);
        }
    }
    same
}

fn is_same(tables: &Tables, pages: &CellPages, c: char) -> bool {
    let resolved = resolved(tables, c);
    resolved == tables.cell(c) && resolved == pages.cell(c)
}

fn resolved(tables: &Tables, c: char) -> Cell {
    let code = u32::from(c);
    resolve(
        tables.line_break(code),
        tables.east_asian(code),
        tables.category(code),
        tables.is_pictographic(code),
    )
}

fn status(alloc: Global) -> Result<String, AllocError> {
    let report = Report {
        lines: 1,
        agreed: 0,
        differed: 1,
        refused: 0,
    };
    let help = Ending::Help {
        text: String::from_str(alloc, "help")?,
    };
    let differs = Ending::Differs(report);
    begin(alloc);
    let statuses = [Ending::Done.status(), help.status(), differs.status()];
    end(alloc);
    told(alloc, &statuses)
}
