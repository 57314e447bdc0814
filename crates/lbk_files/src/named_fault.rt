//! A fault of the property files, as text.

ghost use Rattle.std.specs.Prelude.{option_map};
ghost use Rattle.lbk_files.specs.FaultText.{fault_text};

use super::faults::CellsFault;
use lbk_ucd::{UcdFault, cause_text, claim_text};
use std::fmt;

/// A fault of the property files, after the name of its file: `NAME: cause`, or `NAME:LINE: cause` for a line. `Memory`
/// concerns no file, and has no name.
#[derive(Clone, Copy)]
pub struct NamedFault<N> {
    pub fault: CellsFault,
    pub name: N,
}

impl<N: fmt::Display> fmt::Display for NamedFault<N> {
    ghost output = { λ f. option_map (fault_text f.fault) (N.output f.name) };

    fn fmt<W: fmt::Write>(&self, f: &mut fmt::Formatter<W>) -> fmt::Result {
        let name = &self.name;
        match self.fault {
            CellsFault::Load(_) => write!(f, "{name}: the file cannot be read"),
            CellsFault::Claim(which, cause) => {
                write!(f, "{name}: ")?;
                f.write_str(claim_text(which, cause).as_str())
            }
            CellsFault::Tables(UcdFault { line, cause, .. }) => {
                write!(f, "{name}:")?;
                if line != 0 {
                    write!(f, "{line}:")?;
                }
                f.write_char(' ')?;
                f.write_str(cause_text(cause))
            }
            CellsFault::Memory => write!(f, "out of memory"),
        }
    }
}
