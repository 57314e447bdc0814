//! How the faults of a run are reported to a caller of the library, which has no arguments of the program.

use crate::calls::{must, same};
use lbk_cmd::{BreakFault, CellsFault, ClaimCause, CmdFault, Message, RunFault, Version};
use lbk_notation::ReplayFault;
use lbk_passage::PassageFault;
use lbk_ucd::{UcdCause, UcdFault, Which};
use std::alloc::Global;
use std::fmt::Display;
use std::process::Abort;

/// Compares the text of a fault with the expected one.
fn check<T: Display>(rt: &impl Abort, alloc: Global, fault: &T, want: &str) {
    let told = must(rt, format!(in alloc; "{fault}"));
    same(rt, &told.as_str(), &want, &"the text of a fault");
}

const ROW: UcdFault = UcdFault {
    file: Which::Category,
    line: 7,
    cause: UcdCause::Overlap,
};

const FILE: UcdFault = UcdFault {
    file: Which::Emoji,
    line: 0,
    cause: UcdCause::FileTooLong,
};

const VERSION: Version = Version {
    major: 15,
    minor: 1,
    update: 0,
};

static OF_FILES: [(CellsFault, &str); 8] = [
    (
        CellsFault::Load(Which::LineBreak),
        "LineBreak.txt: the file cannot be read",
    ),
    (
        CellsFault::Claim(Which::EastAsianWidth, ClaimCause::Version(VERSION)),
        "EastAsianWidth.txt: this is Unicode 15.1.0, and lbk needs 15.0.0",
    ),
    (
        CellsFault::Claim(Which::Emoji, ClaimCause::Title),
        "emoji-data.txt: this is not emoji-data.txt of the Unicode Character Database",
    ),
    (
        CellsFault::Claim(
            Which::Emoji,
            ClaimCause::Version(Version {
                update: 1,
                ..VERSION
            }),
        ),
        "emoji-data.txt: this is Emoji 15.1.1, and lbk needs 15.0.0",
    ),
    (
        CellsFault::Claim(Which::Category, ClaimCause::Changed),
        "DerivedGeneralCategory.txt: the file was changed or truncated: it differs from Unicode 15.0.0's \
         DerivedGeneralCategory.txt",
    ),
    (
        CellsFault::Tables(ROW),
        "DerivedGeneralCategory.txt:7: the row overlaps an earlier row",
    ),
    (
        CellsFault::Tables(FILE),
        "emoji-data.txt: the file has more than 8388608 bytes",
    ),
    (CellsFault::Memory, "out of memory"),
];

#[test]
fn faults_of_files(rt: HostRuntime) {
    for (fault, want) in &OF_FILES {
        check(&rt, rt.alloc(), fault, want);
    }
}

static OF_RUNS: [(RunFault, &str); 15] = [
    (RunFault::Open, "the input: cannot be read"),
    (
        RunFault::Load(Which::LineBreak),
        "LineBreak.txt: the file cannot be read",
    ),
    (
        RunFault::Claim(Which::Emoji, ClaimCause::Title),
        "emoji-data.txt: this is not emoji-data.txt of the Unicode Character Database",
    ),
    (
        RunFault::Tables(ROW),
        "DerivedGeneralCategory.txt:7: the row overlaps an earlier row",
    ),
    (
        RunFault::Cmd(CmdFault::Passage(PassageFault::Limit)),
        "the limit of a paragraph must be 1 to 16777216 bytes",
    ),
    (
        RunFault::Cmd(CmdFault::Passage(PassageFault::Read)),
        "the input: cannot be read",
    ),
    (
        RunFault::Cmd(CmdFault::Passage(PassageFault::NotUtf8 { at: 70_000 })),
        "the input: byte 70000: invalid UTF-8",
    ),
    (
        RunFault::Cmd(CmdFault::Passage(PassageFault::TextTooLong)),
        "the input: more than 1073741824 bytes",
    ),
    (
        RunFault::Cmd(CmdFault::Passage(PassageFault::ParagraphTooLong { start: 70_000 })),
        "the input: byte 70000: the paragraph that starts here has more bytes than the limit",
    ),
    (
        RunFault::Cmd(CmdFault::Write),
        "the output: cannot be written",
    ),
    (
        RunFault::Replay(ReplayFault::Read),
        "the input: cannot be read",
    ),
    (
        RunFault::Replay(ReplayFault::Write),
        "the output: cannot be written",
    ),
    (
        RunFault::Replay(ReplayFault::StreamTooLong),
        "the input: more than 1073741824 bytes",
    ),
    (RunFault::Replay(ReplayFault::Memory), "out of memory"),
    (RunFault::Memory, "out of memory"),
];

#[test]
fn faults_of_runs(rt: HostRuntime) {
    for (fault, want) in &OF_RUNS {
        check(&rt, rt.alloc(), fault, want);
        check(&rt, rt.alloc(), &Message::of_call(*fault), want);
    }
}

static OF_ENGINES: [(CmdFault, &str); 9] = [
    (
        CmdFault::Passage(PassageFault::Limit),
        "the limit of a paragraph must be 1 to 16777216 bytes",
    ),
    (CmdFault::Passage(PassageFault::Memory), "out of memory"),
    (
        CmdFault::Passage(PassageFault::Read),
        "the input: cannot be read",
    ),
    (
        CmdFault::Passage(PassageFault::NotUtf8 { at: 9 }),
        "the input: byte 9: invalid UTF-8",
    ),
    (
        CmdFault::Passage(PassageFault::TextTooLong),
        "the input: more than 1073741824 bytes",
    ),
    (
        CmdFault::Passage(PassageFault::ParagraphTooLong { start: 9 }),
        "the input: byte 9: the paragraph that starts here has more bytes than the limit",
    ),
    (
        CmdFault::Passage(PassageFault::Spent),
        "an earlier call failed",
    ),
    (CmdFault::Write, "the output: cannot be written"),
    (CmdFault::Memory, "out of memory"),
];

static OF_TEXTS: [(BreakFault, &str); 4] = [
    (
        BreakFault::Files(CellsFault::Load(Which::LineBreak)),
        "LineBreak.txt: the file cannot be read",
    ),
    (
        BreakFault::Files(CellsFault::Tables(ROW)),
        "DerivedGeneralCategory.txt:7: the row overlaps an earlier row",
    ),
    (
        BreakFault::Text(CmdFault::Passage(PassageFault::NotUtf8 { at: 9 })),
        "the input: byte 9: invalid UTF-8",
    ),
    (BreakFault::Text(CmdFault::Memory), "out of memory"),
];

#[test]
fn faults_of_calls(rt: HostRuntime) {
    for (fault, want) in &OF_ENGINES {
        check(&rt, rt.alloc(), fault, want);
        let message = Message::of_call(RunFault::Cmd(*fault));
        check(&rt, rt.alloc(), &message, want);
    }
    for (fault, want) in &OF_TEXTS {
        check(&rt, rt.alloc(), fault, want);
    }
}
