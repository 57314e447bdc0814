//! The units of a scalar that the end of a piece cuts.

ghost use Rattle.std.specs.Prelude.{◌≡◌, ◌+◌, ◌<◌, ◌≤◌, ◌++◌, [], ◌∷◌, drop, length};
ghost use Rattle.lbk_streams.specs.Stands.{front_of, listed};

use crate::stream::{Cut, Four};
use crate::stream_unit::StreamUnit;

/// The units one after another.
#[inline(always)]
pub(crate) fn listed<U: Copy>(units: Four<U>) -> [U; 4]
    ensures { result ≡ listed units }
{
    [units.first, units.second, units.third, units.fourth]
}

/// At most four units of a text, in the place of those that were cut.
pub(crate) fn kept<U: StreamUnit>(cut: Cut<U>, units: &[U]) -> Cut<U>
    requires { length units.now ≤ 4 }
    ensures within { result.size ≡ length units.now }
    ensures units { front_of result ≡ units.now }
{
    let mut kept = Cut {
        units: cut.units,
        size: 0,
    };
    while kept.size < units.len() {
        kept = with_unit(kept, units[kept.size]);
    }
    kept
}

/// One unit more.
#[inline(always)]
pub(crate) fn with_unit<U: StreamUnit>(cut: Cut<U>, unit: U) -> Cut<U>
    requires { cut.size < 4 }
    ensures size { result.size ≡ cut.size + 1 }
    ensures units { front_of result ≡ front_of cut ++ unit ∷ [] }
{
    let mut units = cut.units;
    match cut.size {
        0 => units.first = unit,
        1 => units.second = unit,
        2 => units.third = unit,
        _ => units.fourth = unit,
    }
    Cut {
        units,
        size: cut.size + 1,
    }
}

/// What comes after the first units.
#[inline(always)]
pub(crate) fn behind<U: StreamUnit>(cut: Cut<U>, size: usize) -> Cut<U>
    requires { (size ≤ cut.size) × (cut.size ≤ 4) }
    ensures size { result.size + size ≡ cut.size }
    ensures units { front_of result ≡ drop size (front_of cut) }
{
    if size == cut.size {
        return Cut {
            units: cut.units,
            size: 0,
        };
    }
    let mut left = cut;
    while cut.size < left.size + size {
        left = behind_one(left);
    }
    left
}

/// What comes after the first unit.
fn behind_one<U: StreamUnit>(cut: Cut<U>) -> Cut<U>
    requires { (0 < cut.size) × (cut.size ≤ 4) }
    ensures size { result.size + 1 ≡ cut.size }
    ensures units { front_of result ≡ drop 1 (front_of cut) }
{
    let from = cut.units;
    let units = Four {
        first: from.second,
        second: from.third,
        third: from.fourth,
        fourth: from.fourth,
    };
    Cut {
        units,
        size: cut.size - 1,
    }
}
