//! The table of the built-in property values.

ghost use Rattle.lbk_rules.specs.FlatTable.{AreKindsAlone, IsFlatOf, IsWhole};
ghost use Rattle.lbk_rules.specs.Unicode.{unicode_cell};

use lbk_rules::FlatTable;

/// Fills the table with the property values of Unicode 15.0.0 (UAX #14, section 6). It reads no file and allocates
/// nothing.
#[unsafe(no_mangle)]
pub extern "C" fn lbk_unicode(table: &mut FlatTable)
    ensures table { IsFlatOf table.new unicode_cell }
    ensures whole { IsWhole table.new }
    ensures kinds { AreKindsAlone table.new unicode_cell }
{
    table.fill_unicode();
}
