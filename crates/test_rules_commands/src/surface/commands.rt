//! What `lbk_cmd` exports: the engines, and a run of the program.

use crate::calls::{must, same};
use lbk_cmd::{
    CmdFault, Ending, LoadFault, MemoryStore, RunFault, SAMPLE_FILES, Store, run, segment, show,
};
use lbk_feed::devices::{MemorySink, MemorySource};
use lbk_feed::{Sink, Source};
use lbk_notation::{ReplayFault, Report};
use lbk_passage::PassageFault;
use lbk_rules::{CellPages, CellSource, Profile};
use lbk_ucd::{UcdFault, Which};
use std::alloc::Global;
use std::test::Fail;
use test_support::calls::pages_by;

/// Each value, and the type of what it holds: one more or less is an error here.
fn values(cmd_fault: CmdFault, load_fault: LoadFault, run_fault: RunFault) {
    match cmd_fault {
        CmdFault::Passage(fault) => {
            let _: PassageFault = fault;
        }
        CmdFault::Write | CmdFault::Memory => {}
    }
    match load_fault {
        LoadFault::Unreadable | LoadFault::Memory => {}
    }
    match run_fault {
        RunFault::Load(which) => {
            let _: Which = which;
        }
        RunFault::Tables(fault) => {
            let _: UcdFault = fault;
        }
        RunFault::Cmd(fault) => {
            let _: CmdFault = fault;
        }
        RunFault::Replay(fault) => {
            let _: ReplayFault = fault;
        }
        RunFault::Memory | RunFault::Open | RunFault::Claim(..) => {}
    }
}

fn status(ending: Ending) -> u8 {
    let status: u8 = ending.status();
    match ending {
        Ending::Done | Ending::Reported => {}
        Ending::Help { text } | Ending::Usage { text } => {
            let _: String = text;
        }
        Ending::Differs(report) => {
            let _: Report = report;
        }
        Ending::Refused(fault) => {
            let _: RunFault = fault;
        }
    }
    status
}

/// The engines over a text have the same types: `show`, and `segment`.
fn written<R: Source, W: Sink, C: CellSource>(
    shows: bool,
    alloc: Global,
    (cells, limit, profile): (&C, u32, Profile),
    reader: &mut R,
    writer: &mut W,
) -> Result<(), CmdFault> {
    if shows {
        return show(alloc, reader, writer, cells, limit, profile);
    }
    segment(alloc, reader, writer, cells, limit, profile)
}

fn ran<S: Store, R: Source, W: Sink>(
    alloc: Global,
    words: &[&str],
    store: &mut S,
    reader: &mut R,
    writer: &mut W,
) -> Ending {
    run(alloc, words, store, reader, writer)
}

fn loaded<S: Store>(alloc: Global, store: &mut S, name: &str) -> Result<Vec<u8>, LoadFault> {
    let most: usize = 8;
    store.load(alloc, name, most)
}

#[test]
fn engines(rt: HostRuntime) -> Result<(), Fail> {
    let cells: CellPages = pages_by(rt.alloc(), SAMPLE_FILES)?;
    let mut writer = must(&rt, MemorySink::new(rt.alloc(), 128));
    for shows in [true, false] {
        let setting = (&cells, 4, Profile::First);
        let mut reader = MemorySource::new(b"ab");
        must(
            &rt,
            written(shows, rt.alloc(), setting, &mut reader, &mut writer),
        );
    }
    Ok(())
}

#[test]
fn runs(rt: HostRuntime) {
    let files: &[(&str, &[u8])] = &[("name", b"bytes")];
    let mut store = MemoryStore::new(files);
    let bytes: Vec<u8> = must(&rt, loaded(rt.alloc(), &mut store, "name"));
    same(&rt, &bytes.as_slice(), &b"bytes".as_slice(), &"a file");
    let mut reader = MemorySource::new(b"ab");
    let mut writer = must(&rt, MemorySink::new(rt.alloc(), 128));
    let words: &[&str] = &["bogus"];
    let ending = ran(rt.alloc(), words, &mut store, &mut reader, &mut writer);
    same(&rt, &status(ending), &2, &words);
}
