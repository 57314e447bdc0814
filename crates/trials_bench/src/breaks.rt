//! `Breaks`, in blocks and one by one, and `Stepper`, over pages and over tables: calls that allocate nothing.

use crate::counting::{begin, end};
use crate::digest::Digest;
use crate::inputs::Input;
use crate::told::fault_told;
use crate::verdicts::{add_late, add_out, add_verdict};
use lbk_files::SAMPLE_FILES;
use lbk_passage::{Break, Breaks};
use lbk_rules::{CellSource, Kind, Profile, Rule, Stepper};
use lbk_ucd::Tables;
use std::alloc::{AllocError, Global};
use test_support::calls::tables_of;
use test_support::engines::Setting;

pub fn breaks(alloc: Global, input: &Input<'_>) -> Result<String, AllocError> {
    match tables_of(alloc, SAMPLE_FILES) {
        Ok(tables) => breaks_told(input.setting(alloc), &tables, input.text()),
        Err(fault) => fault_told(alloc, &fault),
    }
}

fn breaks_told(setting: Setting<'_>, tables: &Tables, text: &str) -> Result<String, AllocError> {
    let Setting {
        alloc,
        cells,
        profile,
        ..
    } = setting;
    let mut digest = Digest::new();
    begin(alloc);
    let in_pages = add_breaks(&mut digest, cells, text, profile);
    let in_tables = add_breaks(&mut digest, tables, text, profile);
    step_stepper(&mut digest, cells, text, profile);
    step_stepper(&mut digest, tables, text, profile);
    end(alloc);
    let digest = digest.value();
    format!(in alloc; "{in_pages} and {in_tables} breaks, digest {digest:016x}\n")
}

const NO_BREAK: Break = Break {
    at: 0,
    kind: Kind::No,
    rule: Rule::Lb31,
};

/// Adds the breaks of a text in blocks of three, and again one by one. Returns how many there are.
fn add_breaks<C: CellSource>(
    digest: &mut Digest,
    cells: &C,
    text: &str,
    profile: Profile,
) -> usize {
    let mut breaks = Breaks::new(cells, text, profile);
    let mut all = add_block(digest, &mut breaks);
    for _ in text.chars() {
        all = all.saturating_add(add_block(digest, &mut breaks));
    }
    add_one_by_one(digest, Breaks::new(cells, text, profile));
    all
}

fn add_one_by_one<C: CellSource>(digest: &mut Digest, breaks: Breaks<'_, C>) {
    for one in breaks {
        add_break(digest, one);
    }
}

/// Adds the breaks of the next block. Returns how many there are.
fn add_block<C: CellSource>(digest: &mut Digest, breaks: &mut Breaks<'_, C>) -> usize {
    let mut block = [NO_BREAK; 3];
    let count = breaks.fill(&mut block);
    for one in block.get(..count).unwrap_or(&[]) {
        add_break(digest, *one);
    }
    count
}

fn add_break(digest: &mut Digest, one: Break) {
    digest.add(one.at as u64);
    digest.add_verdict(one.kind, one.rule);
}

fn step_stepper<C: CellSource>(digest: &mut Digest, cells: &C, text: &str, profile: Profile) {
    let mut stepper = Stepper::start(cells, profile);
    for c in text.chars() {
        add_out(digest, stepper.step(c));
    }
    let ended = stepper.finish();
    add_late(digest, ended.late);
    add_verdict(digest, ended.end);
}
