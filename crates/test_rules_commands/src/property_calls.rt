//! Calls for tests, without their contracts. A test only proves that it is safe and returns, so it needs no facts about
//! them; without these facts a check takes a fraction of the time.

use lbk_ucd::{Category, EastAsian, LineBreak, Places, Run, Tables};
use std::process::Abort;

pub const LAST_CODE: u32 = 0x10FFFF;

/// The values of a code point: line break, width, category, and whether it is a pictograph.
pub type Values = (LineBreak, EastAsian, Category, bool);

pub fn values_of(rt: &impl Abort, tables: &Tables, code: u32) -> Values {
    assert!(rt; code <= LAST_CODE);
    (
        tables.line_break(code),
        tables.east_asian(code),
        tables.category(code),
        tables.is_pictographic(code),
    )
}

/// The range of a code point, looked up near an earlier one.
pub fn run_of(rt: &impl Abort, tables: &Tables, code: u32, near: Places) -> Run {
    assert!(rt; code <= LAST_CODE);
    tables.run(code, near)
}
