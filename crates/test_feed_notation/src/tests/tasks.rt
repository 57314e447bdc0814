//! Tasks that read a text or a test file and write, by names for tables.

use crate::tests::calls::{has_next, replay_to, write_line_to};
use crate::tests::told::told_next;
use lbk_cmd::CmdFault;
use lbk_feed::{Sink, Source};
use lbk_notation::{Form, ReplayFault, Report};
use lbk_passage::{PassageFault, Segmenter};
use lbk_rules::CellPages;
use std::alloc::Global;
use test_support::engines::{Engine, Setting};

/// The most bytes that a run writes.
pub const ROOM: usize = 4096;

/// The tasks.
#[derive(Clone, Copy, Debug, PartialEq, Eq)]
pub enum Task {
    /// Only the segmenter: each passage is written in the tests' form, and nothing follows the last one or a fault.
    Passages,
    Write(Engine),
    Replay(Form),
}

pub const MARK: Task = Task::Write(Engine::Mark);

pub const SHOW: Task = Task::Write(Engine::Show);

pub const SEGMENT: Task = Task::Write(Engine::Segment);

pub const REPLAY: Task = Task::Replay(Form::Plain);

/// How a run ends.
#[derive(Clone, Copy, Debug, PartialEq, Eq)]
pub enum End {
    Text(Result<(), CmdFault>),
    File(Result<Report, ReplayFault>),
}

impl End {
    /// The end of a refused text.
    pub fn refused(fault: PassageFault) -> End {
        End::Text(Err(CmdFault::Passage(fault)))
    }

    pub fn is_refused(self) -> bool {
        matches!(self, End::Text(Err(_)) | End::File(Err(_)))
    }
}

impl Task {
    pub fn run<R: Source, W: Sink>(
        self,
        setting: Setting<'_>,
        reader: &mut R,
        writer: &mut W,
    ) -> End {
        match self {
            Task::Passages => End::Text(tell_all(setting, reader, writer)),
            Task::Write(engine) => End::Text(engine.write(setting, reader, writer)),
            Task::Replay(form) => End::File(replay_to(setting, form, reader, writer)),
        }
    }

    /// The end after a failed read.
    pub fn failed_read(self) -> End {
        match self {
            Task::Replay(_) => End::File(Err(ReplayFault::Read)),
            _ => End::refused(PassageFault::Read),
        }
    }

    /// The end after a failed write.
    pub fn failed_write(self) -> End {
        match self {
            Task::Replay(_) => End::File(Err(ReplayFault::Write)),
            _ => End::Text(Err(CmdFault::Write)),
        }
    }
}

/// Writes a line for each passage, and calls again after the last one; after a fault it reads no more.
fn tell_all<R: Source, W: Sink>(
    setting: Setting<'_>,
    reader: &mut R,
    writer: &mut W,
) -> Result<(), CmdFault> {
    let mut segmenter = setting.segmenter()?;
    let end = tell_to_end(setting.alloc, &mut segmenter, reader, writer);
    let reads = reader.reads();
    let want = match end {
        Ok(()) => Ok(false),
        Err(_) => Err(PassageFault::Spent),
    };
    for _ in 0..3 {
        let again = has_next(&mut segmenter, reader);
        if again != want || (again.is_err() && reader.reads() != reads) {
            return Err(CmdFault::Passage(PassageFault::Spent));
        }
    }
    end
}

fn tell_to_end<R: Source, W: Sink>(
    alloc: Global,
    segmenter: &mut Segmenter<'_, CellPages>,
    reader: &mut R,
    writer: &mut W,
) -> Result<(), CmdFault> {
    for _ in 0..ROOM {
        let Some(line) = told_next(alloc, segmenter, reader)? else {
            return Ok(());
        };
        write_line_to(writer, line.as_str())?;
    }
    Err(CmdFault::Memory)
}
