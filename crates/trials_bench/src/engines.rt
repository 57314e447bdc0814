//! The engines of the program: their results and outputs; the sink of the output; and `break_text`.

use crate::counting::{begin, end};
use crate::inputs::{Input, sink_of, source_of};
use crate::told::{answer_told, fault_told, line_told};
use lbk_cmd::BreakFault;
use lbk_feed::devices::{MemorySink, MemorySource};
use lbk_files::SAMPLE_FILES;
use lbk_notation::{Form, ReplayFault, Report, TestLine};
use std::alloc::{AllocError, Global};
use test_support::engines::{Engine, Setting};

pub fn write(alloc: Global, engine: Engine, input: &Input<'_>) -> Result<String, AllocError> {
    let mut sink = sink_of(alloc)?;
    let mut source = source_of(input.bytes);
    begin(alloc);
    let answer = engine.write(input.setting(alloc), &mut source, &mut sink);
    end(alloc);
    answer_told(alloc, &answer, sink.bytes())
}

pub fn replay(alloc: Global, input: &Input<'_>) -> Result<String, AllocError> {
    let mut sink = sink_of(alloc)?;
    let mut source = source_of(input.bytes);
    begin(alloc);
    let answer = replayed(input.setting(alloc), input.form, &mut source, &mut sink);
    end(alloc);
    answer_told(alloc, &answer, sink.bytes())
}

/// `replay`, without its contract.
fn replayed(
    setting: Setting<'_>,
    form: Form,
    source: &mut MemorySource<'_>,
    sink: &mut MemorySink,
) -> Result<Report, ReplayFault> {
    let Setting { alloc, cells, .. } = setting;
    lbk_notation::replay(alloc, source, sink, cells, form, setting.profile)
}

pub fn break_text(alloc: Global, input: &Input<'_>) -> Result<String, AllocError> {
    let mut source = source_of(input.bytes);
    begin(alloc);
    let answer = broken(input.setting(alloc), &mut source);
    end(alloc);
    match answer {
        Ok(lines) => lines_told(alloc, &lines),
        Err(fault) => fault_told(alloc, &fault),
    }
}

/// `break_text`, without its contract.
fn broken(
    setting: Setting<'_>,
    source: &mut MemorySource<'_>,
) -> Result<Vec<TestLine>, BreakFault> {
    lbk_cmd::break_text(
        setting.alloc,
        SAMPLE_FILES,
        source,
        setting.limit,
        setting.profile,
    )
}

fn lines_told(alloc: Global, lines: &[TestLine]) -> Result<String, AllocError> {
    let count = lines.len();
    let mut text = format!(in alloc; "Ok: {count} lines\n")?;
    for line in lines {
        push_line(alloc, &mut text, line)?;
    }
    Ok(text)
}

fn push_line(alloc: Global, text: &mut String, line: &TestLine) -> Result<(), AllocError> {
    let line = line_told(alloc, line)?;
    text.push_str(&line)
}

pub fn sink(alloc: Global, room: u16) -> Result<String, AllocError> {
    begin(alloc);
    let answer = MemorySink::new(alloc, usize::from(room));
    end(alloc);
    match answer {
        Ok(sink) => {
            let written = sink.bytes();
            format!(in alloc; "Ok: {written:?}\n")
        }
        Err(fault) => fault_told(alloc, &fault),
    }
}
