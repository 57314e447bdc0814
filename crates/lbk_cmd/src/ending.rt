//! How a run of the program ends.

ghost use Rattle.std.specs.Prelude.{◌≡◌};
ghost use Rattle.lbk_cmd.specs.Ending.{ending_after, ending_of_files, ending_of_replay, ending_of_text, is_last};
ghost use Rattle.lbk_cmd.specs.Ending.{status_of};

use super::faults::CmdFault;
use super::message::Message;
use lbk_files::{CellsFault, ClaimCause, NotReady};
use lbk_notation::{ReplayFault, Report};
use lbk_passage::PassageFault;
use lbk_ucd::{UcdFault, Which};
use thiserror::Error;

/// Why a run is refused. Its text is the `Message` of a call.
#[derive(Clone, Copy, Debug, PartialEq, Eq, Error)]
#[error("{}", Message::of_call(*self))]
pub enum RunFault {
    /// A text cannot be opened.
    Open,
    /// A property file cannot be opened or read.
    Load(Which),
    /// A property file in a folder is not that of Unicode 15.0.
    Claim(Which, ClaimCause),
    /// The first fault of the property files, or a line where their tables could not grow.
    Tables(UcdFault),
    /// `mark`, `show` or `segment` stopped.
    Cmd(CmdFault),
    /// `replay` stopped.
    Replay(ReplayFault),
    /// Any other allocation failed.
    Memory,
}

/// How a run of the program ends.
#[derive(Debug, Drop)]
pub enum Ending {
    /// Everything was written.
    Done,
    /// The arguments asked for help or for the version; this is its text.
    Help { text: String },
    /// The arguments are not a command line of the program; the text says why.
    Usage { text: String },
    /// The test files were replayed, and lines differ or are refused. This is the report of the first file that has such
    /// a line.
    Differs(Report),
    /// A step failed.
    Refused(RunFault),
    /// Some texts were refused and reported; the others are done, or differ.
    Reported,
}

impl Ending {
    /// The exit status: 0 done or help, 1 refused, 2 invalid arguments, 3 a replay with lines that differ or are
    /// refused.
    pub fn status(&self) -> u8
        ensures { result ≡ status_of self.now }
    {
        match self {
            Ending::Done | Ending::Help { .. } => 0,
            Ending::Refused(_) | Ending::Reported => 1,
            Ending::Usage { .. } => 2,
            Ending::Differs(_) => 3,
        }
    }

    /// The ending of a run without cells.
    pub(crate) fn of_files(fault: CellsFault) -> Ending
        ensures { result ≡ ending_of_files fault }
    {
        match fault {
            CellsFault::Load(which) => Ending::Refused(RunFault::Load(which)),
            CellsFault::Claim(which, cause) => Ending::Refused(RunFault::Claim(which, cause)),
            CellsFault::Tables(fault) => Ending::Refused(RunFault::Tables(fault)),
            CellsFault::Memory => Ending::Refused(RunFault::Memory),
        }
    }

    /// The ending of a run over texts, from that of the earlier texts and of the next one.
    pub(crate) fn and(self, next: Ending) -> Ending
        ensures { result ≡ ending_after self next }
    {
        match (self, next) {
            (_, Ending::Refused(_)) => Ending::Reported,
            (Ending::Done, next) => next,
            (before, _) => before,
        }
    }

    /// Whether a run stops after a text that ended so: the output cannot be written, or an allocation failed.
    pub(crate) fn is_last(&self) -> bool
        ensures { result ≡ is_last self.now }
    {
        matches!(
            self,
            Ending::Refused(
                RunFault::Memory
                    | RunFault::Cmd(
                        CmdFault::Write
                            | CmdFault::Memory
                            | CmdFault::Passage(PassageFault::Memory),
                    )
                    | RunFault::Replay(ReplayFault::Write | ReplayFault::Memory)
            )
        )
    }

    /// The ending of a run of `show` or `segment`.
    pub(crate) fn of_text(answer: Result<(), CmdFault>) -> Ending
        ensures { result ≡ ending_of_text answer }
    {
        match answer {
            Ok(()) => Ending::Done,
            Err(fault) => Ending::Refused(RunFault::Cmd(fault)),
        }
    }

    /// The ending of a run of `replay`.
    pub(crate) fn of_replay(answer: Result<Report, ReplayFault>) -> Ending
        ensures { result ≡ ending_of_replay answer }
    {
        match answer {
            Ok(report) if report.differed > 0 || report.refused > 0 => Ending::Differs(report),
            Ok(_) => Ending::Done,
            Err(fault) => Ending::Refused(RunFault::Replay(fault)),
        }
    }
}

impl From<NotReady> for Ending {
    ghost use Rattle.lbk_cmd.specs.Ending.{ending_of_stop};

    ghost from_gives = { λ stop ending. ending ≡ ending_of_stop stop };

    fn from(stop: NotReady) -> Ending {
        match stop {
            NotReady::Help { text } => Ending::Help { text },
            NotReady::Usage { text } => Ending::Usage { text },
            NotReady::Refused(fault) => Ending::of_files(fault),
        }
    }
}
