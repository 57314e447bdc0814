//! The layers, each as one run over the whole text.

use crate::dropped::Dropped;
use crate::material::{Material, setting_of};
use lbk_feed::devices::MemorySource;
use lbk_passage::{Breaks, Segment};
use lbk_rules::{
    Break, CellPages, CellSource, Kind, LateMachine, Machine, Profile, Rule, Stepper, Verdict,
};
use std::alloc::{AllocError, Global};
use test_support::calls::next_passage;
use test_support::engines::Engine;
use unicode_segmentation::UnicodeSegmentation;

/// A part of the work.
#[derive(Clone, Copy)]
pub enum Layer {
    /// The verdicts of the first profile, in order.
    Machine,
    /// Those of a profile, by the machine that may hold a position.
    LateMachine(Profile),
    /// The same, by the table of steps, or what replaces it.
    Stepper(Profile),
    /// The breaks in blocks.
    Breaks(Profile),
    /// The same over tables, which have no table of steps.
    ByRules,
    /// The word boundaries of the text.
    Words,
    /// The segments of each line.
    Segments,
    /// The passages of the text from a device in memory.
    Next,
    /// What an engine of the program writes for the text.
    Engine(Engine),
}

/// The layers and their names, in the order of their runs.
pub const LAYERS: [(Layer, &str); 14] = [
    (Layer::Machine, "Machine"),
    (Layer::LateMachine(Profile::First), "LateMachine, profile 1"),
    (
        Layer::LateMachine(Profile::Second),
        "LateMachine, profile 2",
    ),
    (Layer::Stepper(Profile::First), "Stepper, profile 1"),
    (Layer::Stepper(Profile::Second), "Stepper, profile 2"),
    (Layer::Breaks(Profile::First), "Breaks, profile 1"),
    (Layer::Breaks(Profile::Second), "Breaks, profile 2"),
    (Layer::ByRules, "Breaks by the rules"),
    (Layer::Words, "words"),
    (Layer::Segments, "segments of lines"),
    (Layer::Next, "next"),
    (Layer::Engine(Engine::Show), "show"),
    (Layer::Engine(Engine::Mark), "mark"),
    (Layer::Engine(Engine::Segment), "segment"),
];

/// How many breaks a block holds.
const BLOCK: usize = 1024;

/// How many it holds in the segmenter.
const SEGMENTS: usize = 64;

const NO_BREAK: Break = Break {
    at: 0,
    kind: Kind::No,
    rule: Rule::Lb31,
};

impl Layer {
    /// One run. Its count depends on everything that it does.
    pub fn run(self, alloc: Global, material: &Material<'_>) -> Result<u64, AllocError> {
        let text = material.text;
        let cells = material.cells;
        match self {
            Layer::Machine => Ok(by_machine(cells, text)),
            Layer::LateMachine(profile) => Ok(by_late_machine(cells, profile, text)),
            Layer::Stepper(profile) => Ok(by_stepper(cells, profile, text)),
            Layer::Breaks(profile) => Ok(by_breaks(cells, profile, text)),
            Layer::ByRules => Ok(by_breaks(material.tables, Profile::First, text)),
            Layer::Words => Ok(text.split_word_bounds().count() as u64),
            Layer::Segments => segments(alloc, cells, text),
            Layer::Next => Ok(passages(alloc, cells, text)),
            Layer::Engine(engine) => Ok(written(alloc, engine, cells, text)),
        }
    }
}

fn breaks_at(verdict: Verdict) -> u64 {
    u64::from(verdict.kind != Kind::No)
}

fn by_machine(cells: &CellPages, text: &str) -> u64 {
    let mut machine = Machine::start();
    let mut breaks = 0u64;
    for c in text.chars() {
        breaks = breaks.wrapping_add(breaks_at(machine.step(cells.cell(c))));
    }
    breaks.wrapping_add(breaks_at(machine.finish()))
}

/// How many breaks are in the results of a step or of the end.
fn breaks_in(late: Option<(u64, Verdict)>, now: Option<Verdict>) -> u64 {
    let late = match late {
        Some((_, verdict)) => breaks_at(verdict),
        None => 0,
    };
    let now = match now {
        Some(verdict) => breaks_at(verdict),
        None => 0,
    };
    late.wrapping_add(now)
}

fn by_late_machine(cells: &CellPages, profile: Profile, text: &str) -> u64 {
    let mut machine = LateMachine::start(profile);
    let mut breaks = 0u64;
    for c in text.chars() {
        if machine.steps() == u64::MAX {
            break;
        }
        let out = machine.step(cells.cell(c));
        breaks = breaks.wrapping_add(breaks_in(out.late, out.now));
    }
    let end = machine.finish();
    breaks.wrapping_add(breaks_in(end.late, Some(end.end)))
}

fn by_stepper(cells: &CellPages, profile: Profile, text: &str) -> u64 {
    let mut stepper = Stepper::start(cells, profile);
    let mut breaks = 0u64;
    for c in text.chars() {
        let out = stepper.step(c);
        breaks = breaks.wrapping_add(breaks_in(out.late, out.now));
    }
    let end = stepper.finish();
    breaks.wrapping_add(breaks_in(end.late, Some(end.end)))
}

fn by_breaks<C: CellSource>(cells: &C, profile: Profile, text: &str) -> u64 {
    let mut breaks = Breaks::new(cells, text, profile);
    let mut block = [NO_BREAK; BLOCK];
    let mut count = 0u64;
    for _ in 0..u64::MAX {
        let some = breaks.fill(&mut block);
        if some == 0 {
            break;
        }
        for found in &block[..some] {
            count = count.wrapping_add(u64::from(found.kind != Kind::No));
        }
    }
    count
}

/// The loop of the segmenter, over each line.
fn segments(alloc: Global, cells: &CellPages, text: &str) -> Result<u64, AllocError> {
    let mut segments = Vec::new(alloc);
    let mut block = [NO_BREAK; SEGMENTS];
    let mut count = 0u64;
    for line in text.split('\n') {
        segments.clear();
        cut(cells, line, &mut block, &mut segments)?;
        count = count.wrapping_add(segments.len() as u64);
    }
    Ok(count)
}

/// One line. The error is the segmenter's, too: a larger one would be written in each call.
fn cut(
    cells: &CellPages,
    text: &str,
    block: &mut [Break; SEGMENTS],
    segments: &mut Vec<Segment>,
) -> Result<(), AllocError> {
    let mut breaks = Breaks::new(cells, text, Profile::First);
    let mut start = 0;
    for _ in 0..u64::MAX {
        let some = breaks.fill(block);
        for found in &block[..some] {
            // A text has at most TEXT_MOST bytes.
            let end = u32::try_from(found.at).unwrap_or(u32::MAX);
            segments.push(Segment {
                start,
                end,
                kind: found.kind,
                rule: found.rule,
            })?;
            start = end;
        }
        if some < SEGMENTS {
            break;
        }
    }
    Ok(())
}

/// The number of segments. No text of Rust is refused: it is well-formed, and shorter than the limit.
fn passages(alloc: Global, cells: &CellPages, text: &str) -> u64 {
    let mut source = MemorySource::new(text.as_bytes());
    let Ok(mut segmenter) = setting_of(alloc, cells).segmenter() else {
        return 0;
    };
    let mut count = 0u64;
    for _ in 0..u64::MAX {
        let Ok(Some(passage)) = next_passage(&mut segmenter, &mut source) else {
            break;
        };
        count = count.wrapping_add(passage.segments.len() as u64);
    }
    count
}

/// 1 if all is written.
fn written(alloc: Global, engine: Engine, cells: &CellPages, text: &str) -> u64 {
    let mut source = MemorySource::new(text.as_bytes());
    let answer = engine.write(setting_of(alloc, cells), &mut source, &mut Dropped);
    u64::from(answer.is_ok())
}
