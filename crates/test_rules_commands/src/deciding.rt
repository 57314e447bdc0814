//! The cells of properties, the units of cells, and rules by their numbers.

use crate::calls::same;
use lbk_rules::{Class, Rule, resolve};
use lbk_ucd::{Category, EastAsian, LineBreak};
use test_support::cells::plain;

/// A class, and whether a cell of it closes the quotation, if that is known.
static UNITS: [(Class, Option<bool>); 3] = [
    (Class::InfixNumeric, Some(true)),
    (Class::Alphabetic, Some(false)),
    (Class::CombiningMark, None),
];

/// A rule's number, and a number of no rule.
static NUMBERS: [(u8, Option<Rule>); 3] = [
    (65, Some(Rule::Lb8a)),
    (248, Some(Rule::Lb31)),
    (249, None),
];

/// A class, and whether a mark after a cell of it heads a unit.
static FRESH: [(Class, bool); 2] = [(Class::Space, true), (Class::Alphabetic, false)];

#[test]
fn cells_and_rules(rt: HostRuntime) {
    let (context, width) = (LineBreak::ComplexContext, EastAsian::Neutral);
    let cell = resolve(context, width, Category::Mn, false);
    same(&rt, &cell, &plain(Class::CombiningMark), &"its cell");
    for (number, rule) in &NUMBERS {
        same(&rt, &Rule::numbered(*number), rule, number);
    }
    for (class, closes) in &UNITS {
        same(&rt, &plain(*class).unit_closes(false), closes, class);
    }
    for (class, leaves) in &FRESH {
        same(&rt, &plain(*class).leaves_fresh(), leaves, class);
    }
}
