//! Runs of a task over bytes in memory, and their expected results.

use crate::tests::calls::{memory_sink, must, same, source_of};
use crate::tests::tasks::{End, ROOM, Task};
use lbk_feed::devices::MemorySink;
use lbk_feed::{Sink, Source};
use std::alloc::AllocError;
use std::process::Abort;
use test_support::engines::Setting;

/// A task, the bytes that it reads, the sizes of the reads (the last one for all later reads), and the read that fails.
#[derive(Clone, Copy, Debug)]
pub struct Run<'a> {
    pub task: Task,
    pub input: &'a [u8],
    pub sizes: &'a [usize],
    pub failing: Option<u64>,
}

/// How a run ended, the sink that it wrote to, and the source afterwards.
#[derive(Drop)]
pub struct Ran {
    pub end: End,
    pub sink: MemorySink,
    pub reads: u64,
    pub ended: bool,
}

/// A run that reads everything at once.
pub fn whole(task: Task, input: &[u8]) -> Run<'_> {
    Run {
        task,
        input,
        sizes: &[],
        failing: None,
    }
}

impl Run<'_> {
    /// Runs into a sink that accepts everything.
    pub fn ran(self, setting: Setting<'_>) -> Result<Ran, AllocError> {
        let mut source = source_of(self.input, self.sizes, self.failing);
        let mut sink = memory_sink(setting.alloc, ROOM, usize::MAX)?;
        let end = self.task.run(setting, &mut source, &mut sink);
        Ok(Ran {
            end,
            sink,
            reads: source.reads(),
            ended: source.ended(),
        })
    }
}

/// Runs, and compares how it ended and what it wrote; a run that is not refused reads to the end. The number of reads.
pub fn check_run(
    rt: &impl Abort,
    run: Run<'_>,
    setting: Setting<'_>,
    end: End,
    written: &[u8],
) -> u64 {
    let ran = must(rt, run.ran(setting));
    same(rt, &ran.end, &end, &run);
    same(rt, &ran.sink.bytes(), &written, &run);
    same(rt, &ran.sink.failures(), &0, &run);
    same(rt, &(ran.ended || end.is_refused()), &true, &run);
    ran.reads
}
