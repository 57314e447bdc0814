//! Why there are no cells, and why no engine runs.

use super::named_fault::NamedFault;
use lbk_ucd::{ClaimCause, UcdFault, Which, file_name};
use thiserror::Error;

/// Why there are no cells.
#[derive(Clone, Copy, Debug, PartialEq, Eq, Error)]
pub enum CellsFault {
    /// The file cannot be opened or read.
    #[error("{}", named(*self, *.0))]
    Load(Which),
    /// The file should be the one that Unicode 15.0.0 published, and is not.
    #[error("{}", named(*self, *.0))]
    Claim(Which, ClaimCause),
    /// The first fault of the property files, or a line where their tables could not grow.
    #[error("{}", named(*self, .0.file))]
    Tables(UcdFault),
    /// An allocation failed.
    #[error("out of memory")]
    Memory,
}

/// A fault, after its file's name in the Unicode Character Database.
fn named(fault: CellsFault, which: Which) -> NamedFault<&'static str> {
    NamedFault {
        fault,
        name: file_name(which),
    }
}

/// Why no engine runs.
#[derive(Debug, Drop)]
pub enum NotReady {
    /// The arguments ask for help or for the version; this is its text.
    Help { text: String },
    /// The arguments are not a command line of the program; the text says why.
    Usage { text: String },
    /// There are no cells, or an allocation failed.
    Refused(CellsFault),
}
