//! The files of the system.

ghost use Rattle.std.specs.Prelude.{None};

use super::latin1::{Looking, MayBeLatin1};
use super::output_file::OutputFile;
use super::reporting;
use super::watching::{Named, named};
use lbk_args::{Engine, Order};
use lbk_cmd::{Caller, RunFault, Texts};
use lbk_feed::Device;
use lbk_feed::noted::{Input, Notes, Noting};
use lbk_files::{LoadFault, Opens};
use std::fs::File;
use std::io::ErrorKind;

/// The property files of the system, by their names. It records why one cannot be opened or read.
#[derive(Drop)]
pub struct SystemFiles<'a> {
    rt: &'a HostRuntime,
    notes: &'a Notes,
}

impl<'a> SystemFiles<'a> {
    pub fn new(rt: &'a HostRuntime, notes: &'a Notes) -> SystemFiles<'a> {
        SystemFiles { rt, notes }
    }
}

impl<'a> Opens for SystemFiles<'a> {
    type File = Device<Noting<'a, File>>;

    ghost contents = { λ files name. None };

    fn open(&self, name: &str) -> Result<Device<Noting<'a, File>>, LoadFault> {
        match self.notes.noted(File::open(self.rt, name)) {
            Ok(file) => Ok(Device::new(Noting::new(file, self.notes))),
            Err(error) if error.kind() == ErrorKind::OutOfMemory => Err(LoadFault::Memory),
            Err(_) => Err(LoadFault::Unreadable),
        }
    }
}

/// A text of the system.
pub type Text<'a> = Input<'a, Looking<'a, Device<Noting<'a, File>>>>;

/// The texts of the system, by their names. It records why one cannot be opened or read, and prints on standard error
/// why one is refused.
#[derive(Drop)]
pub struct SystemTexts<'a> {
    rt: &'a HostRuntime,
    output: OutputFile,
    /// What the arguments ask for, once this is known.
    caller: Caller<'a>,
    /// The property files that they name.
    named: &'a Named,
    notes: &'a Notes,
    latin1: &'a MayBeLatin1,
}

impl<'a> SystemTexts<'a> {
    pub fn new(
        rt: &'a HostRuntime,
        output: OutputFile,
        named: &'a Named,
        notes: &'a Notes,
        latin1: &'a MayBeLatin1,
    ) -> SystemTexts<'a> {
        SystemTexts {
            rt,
            output,
            caller: Caller::NoWords,
            named,
            notes,
            latin1,
        }
    }

    /// Who asks for the run.
    pub fn caller(&self) -> Caller<'a> {
        self.caller
    }
}

impl<'a> Opens for SystemTexts<'a> {
    type File = Text<'a>;

    ghost contents = { λ texts name. None };

    /// A file that is also the output is refused.
    fn open(&self, name: &str) -> Result<Text<'a>, LoadFault> {
        self.notes.is_output.set(false);
        match self.notes.noted(File::open(self.rt, name)) {
            Ok(file) if self.output.is(file.metadata()) => {
                self.notes.is_output.set(true);
                Err(LoadFault::Unreadable)
            }
            Ok(file) => {
                let device = Device::new(Noting::new(file, self.notes));
                Ok(Input::new(Looking::new(device, self.latin1), self.notes))
            }
            Err(error) if error.kind() == ErrorKind::OutOfMemory => Err(LoadFault::Memory),
            Err(_) => Err(LoadFault::Unreadable),
        }
    }
}

impl<'a> Texts<'a> for SystemTexts<'a> {
    ghost refused = { λ texts. None };

    fn begin(&mut self, order: &Order<'a>) {
        self.named.set(named(&order.values));
        self.caller = Caller::Words {
            engine: order.engine,
            values: order.values,
        };
        // Without --kinds lines with ! are refused, and a hint says why.
        let is_plain = order.engine == Engine::Replay { kinds: false };
        self.notes.wants_kinds.set(is_plain);
    }

    fn refuse(&mut self, name: &str, fault: RunFault) {
        reporting::report_refusal(
            self.rt,
            self.caller,
            Some(name),
            fault,
            self.notes,
            self.latin1,
        );
    }
}
