//! The result of a line of a test file.

ghost use Rattle.std.specs.Prelude.{◌≡◌, ◌+◌, ◌<◌};
ghost use Rattle.lbk_notation.specs.Stream.{longest_stream};
ghost use Rattle.lbk_notation.specs.declared.findings.ReplayFault.TheVariants.{Memory};

use super::marks::Mark;
use lbk_feed::TEXT_MAX;
use lbk_rules::Verdict;
use std::alloc::AllocError;

/// How a line of a break test compares with the rules (UAX #14, section 6).
#[derive(Clone, Copy, Debug, PartialEq, Eq)]
pub enum Outcome {
    /// Every mark agrees.
    Agree,
    /// The first position whose mark does not agree, counted in scalars from 0, the line's mark there, and the rules'
    /// verdict.
    Differ {
        position: usize,
        file: Mark,
        rules: Verdict,
    },
}

/// The result of one line of a test file.
#[derive(Clone, Copy)]
pub enum Finding {
    /// It is blank, or a comment.
    NoLine,
    /// Its marks were compared with the rules.
    Replayed(Outcome),
    /// It is not a line of the notation, from byte `at` on.
    Bad { at: u32 },
    /// It has more bytes than a line may have.
    Long,
}

/// How the lines of a test file compare with the rules: each of `lines` agreed, differed or was refused. Blank
/// and comment lines are not counted.
#[derive(Clone, Copy, Debug, PartialEq, Eq)]
pub struct Report {
    pub lines: u32,
    pub agreed: u32,
    pub differed: u32,
    pub refused: u32,
}

/// Why a replay stopped before the end of its file.
#[derive(Clone, Copy, Debug, PartialEq, Eq)]
pub enum ReplayFault {
    /// The reader failed in this call.
    Read,
    /// The writer failed in this call.
    Write,
    /// An allocation failed.
    Memory,
    /// More than 1,073,741,824 bytes were read.
    StreamTooLong,
}

/// The most bytes of a replayed file: as many as of a text.
pub const STREAM_MAX: usize = TEXT_MAX as usize;

impl From<AllocError> for ReplayFault {
    ghost from_gives = { λ _ fault. fault ≡ Memory };

    fn from(_refused: AllocError) -> ReplayFault {
        ReplayFault::Memory
    }
}

impl Report {
    ghost use Rattle.lbk_notation.specs.Counted.{counted};

    /// No lines.
    pub(crate) fn none() -> Report
        ensures { result ≡ record { lines = 0; agreed = 0; differed = 0; refused = 0 } }
    {
        Report {
            lines: 0,
            agreed: 0,
            differed: 0,
            refused: 0,
        }
    }

    /// One more line.
    pub(crate) fn count(&mut self, finding: Finding)
        requires few { self.old.lines < longest_stream }
        requires sum { self.old.agreed + self.old.differed + self.old.refused ≡ self.old.lines }
        ensures { self.new ≡ counted self.old finding }
    {
        match finding {
            Finding::NoLine => return,
            Finding::Replayed(Outcome::Agree) => self.agreed += 1,
            Finding::Replayed(Outcome::Differ { .. }) => self.differed += 1,
            Finding::Bad { .. } | Finding::Long => self.refused += 1,
        }
        self.lines += 1;
    }
}
