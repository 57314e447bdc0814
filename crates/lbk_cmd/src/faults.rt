//! The faults of the engines.

ghost use Rattle.std.specs.Prelude.{◌≡◌};
ghost use Rattle.lbk_cmd.specs.declared.faults.CmdFault.TheVariants.{Memory, Passage as passage_fault, Write};

use super::ending::RunFault;
use super::message::Message;
use lbk_feed::Failed;
use lbk_passage::PassageFault;
use std::alloc::{AllocError, AllocFailed};
use thiserror::Error;

/// Why an engine stopped. Its text is the `Message` of a call.
#[derive(Clone, Copy, Debug, PartialEq, Eq, Error)]
#[error("{}", Message::of_call(RunFault::Cmd(*self)))]
pub enum CmdFault {
    /// A passage was refused, or memory could not grow for it.
    Passage(PassageFault),
    /// The writer failed in this call.
    Write,
    /// Memory could not grow for the output.
    Memory,
}

impl From<PassageFault> for CmdFault {
    ghost from_gives = { λ passage fault. fault ≡ passage_fault passage };

    fn from(fault: PassageFault) -> CmdFault {
        CmdFault::Passage(fault)
    }
}

impl From<Failed> for CmdFault {
    ghost from_gives = { λ _ fault. fault ≡ Write };

    fn from(_failed: Failed) -> CmdFault {
        CmdFault::Write
    }
}

impl From<AllocError> for CmdFault {
    ghost from_gives = { λ _ fault. fault ≡ Memory };

    fn from(_refused: AllocError) -> CmdFault {
        CmdFault::Memory
    }
}

impl<T: Drop> From<AllocFailed<T>> for CmdFault {
    ghost from_gives = { λ _ fault. fault ≡ Memory };

    fn from(_refused: AllocFailed<T>) -> CmdFault {
        CmdFault::Memory
    }
}
