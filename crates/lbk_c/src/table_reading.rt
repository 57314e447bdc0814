//! A table from property files: the only module with calls that allocate.

ghost use Rattle.lbk_ucd.specs.Digests.{ArePublished};
ghost use Rattle.lbk_ucd.specs.Files.{AreLawful};
ghost use Rattle.lbk_c.specs.Faults.{IsFaultOf, IsFaultOfPublished, files_of};
ghost use Rattle.lbk_c.specs.Reads.{ReadsTable};

use crate::faults::{NO_FAULT, UNMADE_FAULT, given_fault, unpublished_fault};
use crate::interface::Fault;
use lbk_rules::FlatTable;
use lbk_ucd::{Files, Tables, first_unpublished};
use std::alloc::Global;

/// Fills the table from the four property files LineBreak.txt, EastAsianWidth.txt, DerivedGeneralCategory.txt and
/// emoji-data.txt (UAX #44, section 4.2), and returns zeros; or returns the first fault of the first file that has one.
///
/// Cause 8 means a refused allocation: at a line of a file, or at no line while the table was made. After a fault the
/// table is unchanged.
#[unsafe(no_mangle)]
pub extern "C" fn lbk_read(
    alloc: Global,
    table: &mut FlatTable,
    line_break: &[u8],
    east_asian: &[u8],
    category: &[u8],
    emoji: &[u8],
) -> Fault
    ensures { ReadsTable AreLawful IsFaultOf (files_of line_break.entry east_asian.entry category.entry emoji.entry)
        table.old table.new result }
{
    let files = Files {
        line_break,
        east_asian,
        category,
        emoji,
    };
    let tables = match Tables::read(alloc, files) {
        Ok(tables) => tables,
        Err(fault) => return given_fault(fault),
    };
    match table.fill(alloc, &tables) {
        Ok(()) => NO_FAULT,
        Err(_) => UNMADE_FAULT,
    }
}

/// Does what `lbk_read` does, but accepts only the four files that Unicode 15.0.0 published; CR LF counts as LF.
///
/// Returns cause 10 for the first file that is not the published one, whatever else is wrong with the files. After a
/// fault the table is unchanged.
#[unsafe(no_mangle)]
pub extern "C" fn lbk_read_published(
    alloc: Global,
    table: &mut FlatTable,
    line_break: &[u8],
    east_asian: &[u8],
    category: &[u8],
    emoji: &[u8],
) -> Fault
    ensures { ReadsTable ArePublished IsFaultOfPublished
        (files_of line_break.entry east_asian.entry category.entry emoji.entry) table.old table.new result }
{
    let files = Files {
        line_break,
        east_asian,
        category,
        emoji,
    };
    match first_unpublished(&files) {
        Some(which) => unpublished_fault(which),
        None => lbk_read(alloc, table, line_break, east_asian, category, emoji),
    }
}
