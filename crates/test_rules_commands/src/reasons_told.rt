//! Messages with the system's reason, which no contract contains: what failed, and then the reason in the words of std.

use crate::calls::{must, same};
use lbk_args::{Engine, FileName, FileNames, PropertyValues};
use lbk_cmd::{Caller, CmdFault, Message, Reason, RunFault};
use lbk_notation::ReplayFault;
use lbk_passage::PassageFault;
use lbk_ucd::Which;
use std::alloc::Global;
use std::io::ErrorKind;
use std::process::Abort;

static KINDS: [ErrorKind; 18] = [
    ErrorKind::PermissionDenied,
    ErrorKind::BrokenPipe,
    ErrorKind::WouldBlock,
    ErrorKind::NotADirectory,
    ErrorKind::IsADirectory,
    ErrorKind::ReadOnlyFilesystem,
    ErrorKind::StaleNetworkFileHandle,
    ErrorKind::InvalidInput,
    ErrorKind::InvalidData,
    ErrorKind::TimedOut,
    ErrorKind::WriteZero,
    ErrorKind::StorageFull,
    ErrorKind::FileTooLarge,
    ErrorKind::ResourceBusy,
    ErrorKind::InvalidFilename,
    ErrorKind::Interrupted,
    ErrorKind::Unsupported,
    ErrorKind::UnexpectedEof,
];

const ENGINE: Engine = Engine::Mark { limit: 9 };

const GIVEN: Caller<'static> = Caller::Words {
    engine: ENGINE,
    values: PropertyValues::Files(FileNames {
        line_break: FileName::Given("L"),
        east_asian: FileName::Given("E"),
        category: FileName::Given("C"),
        emoji: FileName::Given("M"),
    }),
};

const IN_FOLDER: Caller<'static> = Caller::Words {
    engine: ENGINE,
    values: PropertyValues::Files(FileNames {
        line_break: FileName::InFolder("U"),
        east_asian: FileName::InFolder("U"),
        category: FileName::InFolder("U"),
        emoji: FileName::InFolder("U"),
    }),
};

const READ: RunFault = RunFault::Cmd(CmdFault::Passage(PassageFault::Read));

const REPLAY_READ: RunFault = RunFault::Replay(ReplayFault::Read);

const WRITE: RunFault = RunFault::Cmd(CmdFault::Write);

const REPLAY_WRITE: RunFault = RunFault::Replay(ReplayFault::Write);

const LOAD_LINES: RunFault = RunFault::Load(Which::LineBreak);

const LOAD_CATEGORY: RunFault = RunFault::Load(Which::Category);

const LOAD_WIDTHS: RunFault = RunFault::Load(Which::EastAsianWidth);

const IN: &str = "standard input: cannot be read";

const OUT: &str = "standard output: cannot be written";

const WIDTHS: &str = "EastAsianWidth.txt: the file cannot be read";

/// A fault, its caller, the operand that names the text, and the message before the reason.
type Row = (
    RunFault,
    Caller<'static>,
    Option<&'static str>,
    &'static str,
);

static ROWS: [Row; 12] = [
    (RunFault::Open, GIVEN, Some("x"), "x: cannot be read"),
    (READ, GIVEN, Some("x"), "x: cannot be read"),
    (READ, GIVEN, None, IN),
    (READ, Caller::NoWords, None, IN),
    (READ, Caller::Call, None, "the input: cannot be read"),
    (REPLAY_READ, GIVEN, Some("-"), IN),
    (WRITE, GIVEN, None, OUT),
    (REPLAY_WRITE, IN_FOLDER, None, OUT),
    (WRITE, Caller::Call, None, "the output: cannot be written"),
    (LOAD_LINES, GIVEN, None, "L: the file cannot be read"),
    (LOAD_CATEGORY, GIVEN, None, "C: the file cannot be read"),
    (LOAD_WIDTHS, Caller::Call, None, WIDTHS),
];

/// Compares the message for a fault with this reason.
fn check(
    rt: &impl Abort,
    alloc: Global,
    (fault, caller, text): (RunFault, Caller<'_>, Option<&str>),
    kind: ErrorKind,
    want: &str,
) {
    let message = Message {
        fault,
        caller,
        text,
        reason: Some(Reason::System(kind)),
        looks_like: None,
    };
    let told = must(rt, format!(in alloc; "{message}"));
    same(rt, &told.as_str(), &want, &"the message");
}

/// A folder with unreadable files, and what to do.
static FOLDERS: [(&str, &str); 3] = [
    ("U", "; --unicode 15.0 needs no files"),
    ("x/UCD.zip", "; unpack it, and pass the folder"),
    ("zip", "; --unicode 15.0 needs no files"),
];

#[test]
fn folders(rt: HostRuntime) {
    for (folder, advice) in &FOLDERS {
        let caller = Caller::Words {
            engine: Engine::Replay { kinds: false },
            values: PropertyValues::Files(FileNames {
                line_break: FileName::Given("L"),
                east_asian: FileName::InFolder(folder),
                category: FileName::InFolder(folder),
                emoji: FileName::InFolder(folder),
            }),
        };
        let want = must(
            &rt,
            format!(in rt.alloc();
                "{folder}/emoji/emoji-data.txt: the file cannot be read: no such file{advice}"
            ),
        );
        let fault = (RunFault::Load(Which::Emoji), caller, None);
        check(&rt, rt.alloc(), fault, ErrorKind::NotFound, &want);
    }
}

#[test]
fn reasons(rt: HostRuntime) {
    for (fault, caller, text, front) in &ROWS {
        for kind in &KINDS {
            let want = must(&rt, format!(in rt.alloc(); "{front}: {kind}"));
            check(&rt, rt.alloc(), (*fault, *caller, *text), *kind, &want);
        }
    }
}
