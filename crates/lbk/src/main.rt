//! `lbk`: finds where a text may break and where it must, and the rules that decide.
#![tactic(auto)]

mod hints;
mod latin1;
mod output_file;
mod reporting;
mod system_files;
mod waiting;
mod watching;
mod words;

use latin1::{Looking, MayBeLatin1};
use lbk_cmd::{Caller, CmdFault, Ending, RunFault, run_over_texts};
use lbk_feed::Device;
use lbk_feed::noted::{Input, Notes, Noting, Prompted};
use lbk_files::FileStore;
use output_file::{Barred, OutputFile};
use reporting::report_refusal;
use std::alloc::{AllocError, Global};
use std::fs;
use std::io::IsTerminal;
use std::process::ExitCode;
use system_files::{SystemFiles, SystemTexts};
use waiting::Waiting;
use watching::{Named, Watching};
use words::{without_help_of_help, words_given};

fn main(rt: HostRuntime) -> ExitCode {
    let ending = run_and_tell(&rt);
    ExitCode::from(ending.status())
}

/// Runs the program with the arguments after its name, and prints how the run ended.
fn run_and_tell(rt: &HostRuntime) -> Ending {
    let notes = Notes::new();
    let latin1 = MayBeLatin1::new(false);
    let given = match words_given(rt) {
        Ok(given) => given,
        Err(ending) => return report(rt, Caller::NoWords, ending, &notes, &latin1),
    };
    let Ok(words) = slices_of(rt.alloc(), &given) else {
        return report(rt, Caller::NoWords, out_of_memory(), &notes, &latin1);
    };
    if words.is_empty() {
        let _ = eprintln!(rt; "lbk: {}", hints::SAMPLES);
    }
    let named = Named::new([false; 4]);
    run_on_devices(
        rt,
        without_help_of_help(words.as_slice()),
        &named,
        &notes,
        &latin1,
    )
}

/// Runs the program over the files of the system, from its texts or standard input to standard output, and prints how
/// the run ended.
fn run_on_devices<'x>(
    rt: &'x HostRuntime,
    words: &'x [&'x str],
    named: &'x Named,
    notes: &'x Notes,
    latin1: &'x MayBeLatin1,
) -> Ending {
    let input = rt.stdin();
    let is_terminal = input.is_terminal();
    let output = OutputFile::of_run(rt);
    let is_output = output.is(fs::metadata(rt, "/dev/stdin"));
    let input = Barred::new(input, is_output, notes);
    let input = Device::new(Noting::new(input, notes));
    let input = Prompted::new(input, Waiting::new(rt), is_terminal);
    let mut reader = Input::new(Looking::new(input, latin1), notes);
    let mut writer = Device::new(Noting::new(rt.stdout(), notes));
    let files = SystemFiles::new(rt, notes);
    let mut store = Watching::new(rt, FileStore::new(&files), named);
    let mut texts = SystemTexts::new(rt, output, named, notes, latin1);
    let ending = run_over_texts(
        rt.alloc(),
        words,
        &mut store,
        &mut texts,
        &mut reader,
        &mut writer,
    );
    report(rt, texts.caller(), ending, notes, latin1)
}

fn slices_of(alloc: Global, words: &[String]) -> Result<Vec<&str>, AllocError> {
    words.iter().map(|word| word.as_str()).collect(alloc)
}

pub fn out_of_memory() -> Ending {
    Ending::Refused(RunFault::Memory)
}

/// Prints how a run ended: help on standard output; usage, errors and hints on standard error. Returns that ending, or
/// a refused one if the help could not be written.
fn report(
    rt: &HostRuntime,
    caller: Caller<'_>,
    ending: Ending,
    notes: &Notes,
    latin1: &MayBeLatin1,
) -> Ending {
    let ending = with_help_written(rt, ending, notes);
    match &ending {
        Ending::Done | Ending::Help { .. } | Ending::Reported => {}
        Ending::Differs(report) => {
            if report.refused > 0 && notes.has_kinds.get() {
                let _ = eprintln!(rt; "lbk: {}", hints::KINDS);
            }
        }
        Ending::Usage { text } => {
            let _ = eprint!(rt; "{text}");
        }
        Ending::Refused(fault) => report_refusal(rt, caller, None, *fault, notes, latin1),
    }
    ending
}

/// Writes the text of a run that ends with help.
fn with_help_written(rt: &HostRuntime, ending: Ending, notes: &Notes) -> Ending {
    if let Ending::Help { text } = &ending {
        if notes.noted(print!(rt; "{text}")).is_err() {
            return Ending::Refused(RunFault::Cmd(CmdFault::Write));
        }
    }
    ending
}
