//! Where a text may be cut into parts.

ghost use Rattle.bstr.specs.Utf8.{pieces};
ghost use Rattle.lbk_streams.specs.Cuts.{CutsAfter, CutsBefore};
ghost use Rattle.lbk_units.specs.Units.{pieces_of_utf16};

use lbk_rules::FlatTable;
use lbk_streams::{cut, cut_before, cut_before_utf16, cut_utf16};

/// The first offset at or after `at` at which a part of a text may begin: one with a required break (UAX #14, section
/// 6.1, rules LB4 and LB5), or the end of the text. An `at` past the text counts as its end; for 0 the result is 0,
/// where the first part begins.
///
/// The breaks of the parts are those of the text: the offsets of a later part count from its start, and the end of each
/// part except the last is a break by rule 4 or 5 instead of 3.
#[unsafe(no_mangle)]
pub extern "C" fn lbk_cut(table: &FlatTable, text: &[u8], at: usize) -> usize
    ensures { CutsAfter pieces table.now.kinds table.now.pairs text.now at result }
{
    cut(table, text, at)
}

/// The last offset at or before `at` at which a part of a text may begin. An `at` past the text counts as its end.
#[unsafe(no_mangle)]
pub extern "C" fn lbk_cut_before(table: &FlatTable, text: &[u8], at: usize) -> usize
    ensures { CutsBefore pieces table.now.kinds table.now.pairs text.now at result }
{
    cut_before(table, text, at)
}

/// The first offset at or after `at` at which a part of a text in UTF-16 may begin: one with a required break (UAX #14,
/// section 6.1, rules LB4 and LB5), or the end of the text. An `at` past the text counts as its end; for 0 the result
/// is 0, where the first part begins.
#[unsafe(no_mangle)]
pub extern "C" fn lbk_cut_utf16(table: &FlatTable, text: &[u16], at: usize) -> usize
    ensures { CutsAfter pieces_of_utf16 table.now.kinds table.now.pairs text.now at result }
{
    cut_utf16(table, text, at)
}

/// The last offset at or before `at` at which a part of a text in UTF-16 may begin. An `at` past the text counts as its
/// end.
#[unsafe(no_mangle)]
pub extern "C" fn lbk_cut_before_utf16(table: &FlatTable, text: &[u16], at: usize) -> usize
    ensures { CutsBefore pieces_of_utf16 table.now.kinds table.now.pairs text.now at result }
{
    cut_before_utf16(table, text, at)
}
