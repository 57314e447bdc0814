//! The messages for refused runs.

use super::latin1::MayBeLatin1;
use lbk_cmd::{Caller, CmdFault, Encoding, Message, Reason, RunFault};
use lbk_feed::noted::Notes;
use lbk_notation::ReplayFault;
use std::io::ErrorKind;

/// One line for a refused run, or for a refused text; none if nobody reads the output any more.
pub fn report_refusal<'x>(
    rt: &HostRuntime,
    caller: Caller<'x>,
    text: Option<&'x str>,
    fault: RunFault,
    notes: &Notes,
    latin1: &MayBeLatin1,
) {
    let error = notes.error.get();
    if is_write(fault) && error == Some(ErrorKind::BrokenPipe) {
        return;
    }
    let message = Message {
        fault,
        caller,
        text,
        reason: reason_of(error, notes.is_output.get() && !is_write(fault)),
        looks_like: encoding(notes.is_utf16.get(), latin1.get()),
    };
    let _ = eprintln!(rt; "lbk: {message}");
}

/// The encoding that the text looks like.
fn encoding(is_utf16: bool, may_be_latin1: bool) -> Option<Encoding> {
    if is_utf16 {
        Some(Encoding::Utf16)
    } else if may_be_latin1 {
        Some(Encoding::Latin1)
    } else {
        None
    }
}

/// Why a file or a device failed.
fn reason_of(error: Option<ErrorKind>, is_output: bool) -> Option<Reason> {
    if is_output {
        return Some(Reason::IsOutput);
    }
    Some(Reason::System(error?))
}

/// Whether the output failed.
fn is_write(fault: RunFault) -> bool {
    matches!(
        fault,
        RunFault::Cmd(CmdFault::Write) | RunFault::Replay(ReplayFault::Write)
    )
}
