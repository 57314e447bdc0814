//! A table in a few kilobytes.

ghost use Rattle.std.specs.Prelude.{◌≡◌};
ghost use Rattle.lbk_calls.specs.Packed.{Packs, Unpacks};

use crate::packing::pack;
use crate::unpacking::{Refusal, unpack};
use lbk_rules::{FlatTable, LAYOUT};

/// The version of the packed form.
const VERSION: u8 = LAYOUT as u8;

/// Writes a table in its packed form to the front of the bytes, and returns the size of that form. If it exceeds the
/// room, nothing is written. For a corrupt table it writes nothing and returns 0.
#[unsafe(no_mangle)]
pub extern "C" fn lbk_pack(table: &FlatTable, bytes: &mut [u8]) -> usize
    ensures { Packs table.now bytes.old bytes.new result }
{
    if !table.is_whole() {
        return 0;
    }
    pack(VERSION, &table.kinds, bytes)
}

/// Fills the table from its packed form, and returns 0. All other bytes are refused: it returns the number of a cause.
///
/// After cause 11 or 12 the table is unchanged, after cause 13 its layout is 0.
#[unsafe(no_mangle)]
pub extern "C" fn lbk_unpack(table: &mut FlatTable, bytes: &[u8]) -> u32
    ensures { Unpacks bytes.now table.old table.new result }
{
    match unpack(VERSION, bytes, &mut table.kinds) {
        Ok(()) if table.complete() => 0,
        Ok(()) => spoilt(table),
        Err(Refusal::Foreign) => 11,
        Err(Refusal::Version) => 12,
        Err(Refusal::Damaged) => spoilt(table),
    }
}

/// Makes the table one that `lbk_check` refuses, and returns the cause.
fn spoilt(table: &mut FlatTable) -> u32
    ensures cause { result ≡ 13 }
    ensures layout { table.new.layout ≡ 0 }
{
    table.layout = 0;
    13
}
