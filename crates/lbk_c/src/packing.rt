//! A table in a few kilobytes.

ghost use Rattle.lbk_calls.specs.Packed.{Packs, Unpacks};

use lbk_rules::FlatTable;

/// Writes a table in its packed form to the front of the bytes, and returns the size of that form. If it exceeds the
/// room, nothing is written. For a corrupt table it writes nothing and returns 0.
#[unsafe(no_mangle)]
pub extern "C" fn lbk_pack(table: &FlatTable, bytes: &mut [u8]) -> usize
    ensures { Packs table.now bytes.old bytes.new result }
{
    lbk_calls::lbk_pack(table, bytes)
}

/// Fills the table from its packed form, and returns 0. All other bytes are refused: it returns the number of a cause.
///
/// After cause 11 or 12 the table is unchanged, after cause 13 its layout is 0.
#[unsafe(no_mangle)]
pub extern "C" fn lbk_unpack(table: &mut FlatTable, bytes: &[u8]) -> u32
    ensures { Unpacks bytes.now table.old table.new result }
{
    lbk_calls::lbk_unpack(table, bytes)
}
