//! Cells: those of a text from a source, and those of a class with and without flags.

use lbk_rules::{Cell, CellSource, Class, Quote};
use std::alloc::{AllocError, Global};

pub fn cells_of<C: CellSource>(
    alloc: Global,
    source: &C,
    text: &str,
) -> Result<Vec<Cell>, AllocError> {
    let mut cells = Vec::new(alloc);
    for c in text.chars() {
        cells.push(source.cell(c))?;
    }
    Ok(cells)
}

/// A cell without flags.
pub fn plain(class: Class) -> Cell {
    Cell {
        class,
        wide: false,
        pict_cn: false,
        quote: Quote::Neither,
        letter: false,
    }
}

pub fn wide(class: Class) -> Cell {
    let mut cell = plain(class);
    cell.wide = true;
    cell
}

/// An unassigned pictograph.
pub fn pictograph() -> Cell {
    let mut cell = plain(Class::Ideographic);
    cell.pict_cn = true;
    cell
}

/// A quotation mark.
pub fn mark(quote: Quote) -> Cell {
    let mut cell = plain(Class::Quotation);
    cell.quote = quote;
    cell
}
