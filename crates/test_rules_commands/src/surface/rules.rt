//! What `lbk_rules` exports: cells and their sources, the evaluator, and the machines.

use crate::calls::{decided, late_step, must, same, start_late, step};
use lbk_cmd::SAMPLE_FILES;
use lbk_files::TaskCells;
use lbk_rules::{
    Cell, CellPages, CellSource, Class, End, Kind, LateMachine, Machine, Out, Profile, Quote, Rule,
    UnicodeCells, Verdict, resolve,
};
use lbk_ucd::{Category, EastAsian, LineBreak, Tables};
use test_support::calls::{cell_of, pages_of, tables_of};

/// Each value: one more or less is an error here, and below.
fn class(value: Class) {
    match value {
        Class::Alphabetic
        | Class::BreakBoth
        | Class::BreakAfter
        | Class::BreakBefore
        | Class::MandatoryBreak
        | Class::ContingentBreak
        | Class::ClosePunctuation
        | Class::CombiningMark
        | Class::CloseParenthesis
        | Class::CarriageReturn
        | Class::EBase
        | Class::EModifier
        | Class::Exclamation
        | Class::Glue
        | Class::H2
        | Class::H3
        | Class::HebrewLetter
        | Class::Hyphen
        | Class::Ideographic
        | Class::Inseparable
        | Class::InfixNumeric
        | Class::JL
        | Class::JT
        | Class::JV
        | Class::LineFeed
        | Class::NextLine
        | Class::Nonstarter
        | Class::Numeric
        | Class::OpenPunctuation
        | Class::PostfixNumeric
        | Class::PrefixNumeric
        | Class::Quotation
        | Class::RegionalIndicator
        | Class::Space
        | Class::BreakSymbols
        | Class::WordJoiner
        | Class::ZWSpace
        | Class::ZWJ => {}
    }
}

fn rule(value: Rule) {
    match value {
        Rule::Lb2
        | Rule::Lb3
        | Rule::Lb4
        | Rule::Lb5
        | Rule::Lb6
        | Rule::Lb7
        | Rule::Lb8
        | Rule::Lb8a
        | Rule::Lb9
        | Rule::Lb11
        | Rule::Lb12
        | Rule::Lb12a
        | Rule::Lb13
        | Rule::Lb14
        | Rule::Lb15
        | Rule::Lb15a
        | Rule::Lb15b
        | Rule::Lb16
        | Rule::Lb17
        | Rule::Lb18
        | Rule::Lb19
        | Rule::Lb20
        | Rule::Lb21
        | Rule::Lb21a
        | Rule::Lb21b
        | Rule::Lb22
        | Rule::Lb23
        | Rule::Lb23a
        | Rule::Lb24
        | Rule::Lb25
        | Rule::Lb26
        | Rule::Lb27
        | Rule::Lb28
        | Rule::Lb29
        | Rule::Lb30
        | Rule::Lb30a
        | Rule::Lb30b
        | Rule::Lb31 => {}
    }
}

fn quote(value: Quote) {
    match value {
        Quote::Neither | Quote::Initial | Quote::Final => {}
    }
}

fn kind(value: Kind) {
    match value {
        Kind::No | Kind::May | Kind::Must => {}
    }
}

fn profile(value: Profile) {
    match value {
        Profile::First | Profile::Second => {}
    }
}

fn letter() -> Cell {
    let wide: bool = false;
    let pict_cn: bool = false;
    let letter: bool = true;
    Cell {
        class: Class::Alphabetic,
        wide,
        pict_cn,
        quote: Quote::Neither,
        letter,
    }
}

#[test]
fn cells(rt: HostRuntime) {
    let resolved: Cell = resolve(
        LineBreak::Alphabetic,
        EastAsian::Neutral,
        Category::Ll,
        false,
    );
    same(&rt, &resolved, &letter(), &"a letter");
    let tables: Tables = must(&rt, tables_of(rt.alloc(), SAMPLE_FILES));
    let pages: CellPages = must(&rt, pages_of(rt.alloc(), &tables));
    same(&rt, &cell_of(&tables, 'a'), &cell_of(&pages, 'a'), &'a');
    same(&rt, &UnicodeCells.cell('a'), &letter(), &"a built-in cell");
    let of_task: Cell = TaskCells::BuiltIn(UnicodeCells).cell('a');
    same(&rt, &of_task, &letter(), &"a cell of a task");
}

/// The verdicts of a text of one letter: before it, and at its end.
const VERDICTS: [Verdict; 2] = [
    Verdict {
        kind: Kind::No,
        rule: Rule::Lb2,
    },
    Verdict {
        kind: Kind::Must,
        rule: Rule::Lb3,
    },
];

/// By the evaluator of both profiles, and by the machine of the first.
#[test]
fn verdicts(rt: HostRuntime) {
    let cells: &[Cell] = &[letter()];
    let label: &'static str = VERDICTS[1].rule.label();
    same(&rt, &label, &"3", &"a label");
    for (k, verdict) in VERDICTS.iter().enumerate() {
        same(&rt, &decided(&rt, Profile::First, cells, k), verdict, &k);
        same(&rt, &decided(&rt, Profile::Second, cells, k), verdict, &k);
    }
    let mut machine: Machine = Machine::start();
    let before: Verdict = step(&mut machine, letter());
    let after: Verdict = machine.finish();
    same(&rt, &[before, after], &VERDICTS, &"the machine");
}

/// The same by the machine of either profile.
#[test]
fn late_verdicts(rt: HostRuntime) {
    let mut machine: LateMachine = start_late(Profile::Second);
    let out: Out = late_step(&rt, &mut machine, 0, letter());
    let now: Option<Verdict> = Some(VERDICTS[0]);
    let late: Option<(u64, Verdict)> = None;
    same(&rt, &out, &Out { now, late }, &"a step");
    let steps: u64 = machine.steps();
    same(&rt, &steps, &1, &"steps");
    let end: Verdict = VERDICTS[1];
    same(&rt, &machine.finish(), &End { late, end }, &"the end");
}
