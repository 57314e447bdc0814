//! The line breaking class of a scalar.

ghost use Rattle.lbk_calls.specs.Labels.{NamesClass};

use crate::interface::ClassLabel;
use crate::padding::padded;
use lbk_rules::{FlatTable, class_label};

/// The line breaking class of a scalar value, as rule LB1 resolves it (UAX #14, sections 5.1 and 6.1), for example
/// `AL`: ASCII, padded by zeros. Only zeros for a number that is not a scalar value. With any table it is the name of
/// some class.
#[unsafe(no_mangle)]
pub extern "C" fn lbk_class(table: &FlatTable, scalar: u32) -> ClassLabel
    ensures { NamesClass table.now scalar result.text }
{
    match char::from_u32(scalar) {
        Some(c) => ClassLabel {
            text: padded(class_label(table.cell(c).class).as_bytes()),
        },
        None => ClassLabel { text: [0; 4] },
    }
}
