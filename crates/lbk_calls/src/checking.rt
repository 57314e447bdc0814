//! Whether a table is intact.

ghost use Rattle.std.specs.Prelude.{◌↔◌, IsTrue};
ghost use Rattle.lbk_rules.specs.FlatTable.{IsWhole};

use lbk_rules::FlatTable;

/// Whether the table is intact: its layout is that of this version, and its digest that of its numbers. This holds for
/// each table that `lbk_read` filled, also after it was saved in a file.
#[unsafe(no_mangle)]
pub extern "C" fn lbk_check(table: &FlatTable) -> bool
    ensures { IsTrue result ↔ IsWhole table.now }
{
    table.is_whole()
}
