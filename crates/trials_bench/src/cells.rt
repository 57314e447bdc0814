//! The built-in cells beside those of four property files.

use crate::digest::Digest;
use crate::property_files::files_of;
use anyhow::{Result, bail};
use lbk_rules::{CellPages, CellSource, UnicodeCells};
use std::io;
use test_support::calls::{pages_of, tables_of};

/// How many codes there are.
const CODES: u32 = 0x11_0000;

/// Prints the digest of the built-in cells; and if standard input has four property files, that of theirs, and how many
/// scalar values have another cell by them.
pub fn print(rt: &HostRuntime) -> Result<()> {
    println!(rt; "built-in {:016x}", digest_of(&UnicodeCells))?;
    let input = io::read_to_string(rt.alloc(), rt.stdin())?;
    if input.is_empty() {
        return Ok(());
    }
    let (files, _) = files_of(input.as_str());
    let Ok(tables) = tables_of(rt.alloc(), files) else {
        bail!("a property file is refused");
    };
    let cells = pages_of(rt.alloc(), &tables)?;
    println!(rt; "files {:016x}", digest_of(&cells))?;
    println!(rt; "differing {}", differing(&cells))?;
    Ok(())
}

/// The digest of the cells of all scalar values.
fn digest_of<C: CellSource>(cells: &C) -> u64 {
    let mut digest = Digest::new();
    for code in 0..CODES {
        if let Some(c) = char::from_u32(code) {
            digest.add_cell(cells.cell(c));
        }
    }
    digest.value()
}

/// How many scalar values have another cell than the built-in one.
fn differing(cells: &CellPages) -> usize {
    let mut count = 0_usize;
    for code in 0..CODES {
        if let Some(c) = char::from_u32(code) {
            if cells.cell(c) != UnicodeCells.cell(c) {
                count = count.saturating_add(1);
            }
        }
    }
    count
}
