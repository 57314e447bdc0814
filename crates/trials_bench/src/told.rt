//! Results as text.

use crate::digest::Digest;
use crate::inputs::text_of;
use lbk_notation::{LineFault, TestLine};
use lbk_rules::{Cell, CellSource, Class, Quote};
use std::alloc::{AllocError, Global};
use std::fmt::Debug;
use test_support::calls::cell_of;

/// A result in full.
pub fn told<A: Debug>(alloc: Global, answer: &A) -> Result<String, AllocError> {
    format!(in alloc; "{answer:?}\n")
}

/// That a call failed.
pub fn fault_told<F: Debug>(alloc: Global, fault: &F) -> Result<String, AllocError> {
    format!(in alloc; "Err({fault:?})\n")
}

/// The result, and the output after a line `wrote`.
pub fn answer_told<A: Debug>(
    alloc: Global,
    answer: &A,
    written: &[u8],
) -> Result<String, AllocError> {
    let written = text_of(written);
    format!(in alloc; "{answer:?}\nwrote\n{written}")
}

/// The line that was read, or why there is none.
pub fn read_told(
    alloc: Global,
    answer: Result<Option<TestLine>, LineFault>,
) -> Result<String, AllocError> {
    match answer {
        Ok(Some(line)) => line_told(alloc, &line),
        Ok(None) => String::from_str(alloc, "Ok(None)\n"),
        Err(fault) => fault_told(alloc, &fault),
    }
}

pub fn line_told(alloc: Global, line: &TestLine) -> Result<String, AllocError> {
    let (scalars, marks) = (line.scalars(), line.marks());
    format!(in alloc; "Ok({scalars:?} {marks:?})\n")
}

pub fn digest_told(alloc: Global, digest: Digest) -> Result<String, AllocError> {
    let digest = digest.value();
    format!(in alloc; "digest {digest:016x}\n")
}

/// A digest of the cells of all scalar values.
pub fn cells_told<C: CellSource>(alloc: Global, cells: &C) -> Result<String, AllocError> {
    let mut digest = Digest::new();
    for c in '\0'..=char::MAX {
        digest.add(number_of(cell_of(cells, c)));
    }
    let digest = digest.value();
    format!(in alloc; "Ok: digest {digest:016x}\n")
}

/// A number for each cell.
fn number_of(cell: Cell) -> u64 {
    let flags = u64::from(cell.wide) | u64::from(cell.pict_cn) << 1 | u64::from(cell.letter) << 2;
    flags | number_of_quote(cell.quote) << 3 | number_of_class(cell.class) << 5
}

fn number_of_quote(quote: Quote) -> u64 {
    quote as u64
}

fn number_of_class(class: Class) -> u64 {
    class as u64
}
