//! The texts that operands name.

ghost use Rattle.std.specs.Prelude.{◌≡◌, ◌++◌, ◌∷◌, ℕ, List, [], None, Option, Some, option_map};
ghost use Rattle.lbk_cmd.specs.declared.ending.RunFault.{RunFault};
ghost use Rattle.lbk_cmd.specs.MemoryTexts.{Notes, faults_of, files_of, refusals_told_by, told_by};

use super::ending::RunFault;
use lbk_args::Order;
use lbk_feed::devices::MemorySource;
use lbk_files::{LoadFault, MemoryStore, Opens};
use std::alloc::Global;

/// Texts by their names, and the reports of refused ones.
pub trait Texts<'a>: Opens {
    // The refused names, in order, each with its fault, if this is known.
    ghost refused: { Self → Option (List (List ℕ × RunFault)) };

    /// Receives what the arguments ask for, before anything is opened.
    fn begin(&mut self, order: &Order<'a>)
        ensures refused { refused self.new ≡ refused self.old }
        ensures contents { Self.contents self.new ≡ Self.contents self.old };

    /// Reports that the text with a name was refused, and why.
    fn refuse(&mut self, name: &str, fault: RunFault)
        ensures refused { refused self.new
            ≡ option_map (λ before. before ++ (name.now, fault) ∷ []) (refused self.old) }
        ensures contents { Self.contents self.new ≡ Self.contents self.old };
}

/// Texts in memory, and why some of them were refused.
#[derive(Drop)]
pub struct MemoryTexts<'a> {
    files: MemoryStore<'a>,
    refused: Vec<RunFault>,
}

impl<'a> MemoryTexts<'a> {
    /// Texts with these names. No other name can be opened.
    pub fn new(alloc: Global, files: MemoryStore<'a>) -> MemoryTexts<'a>
        ensures files { files_of result ≡ files.entry }
        ensures none { faults_of result ≡ [] }
    {
        MemoryTexts {
            files,
            refused: Vec::new(alloc),
        }
    }

    /// Why texts were refused, in order, as long as memory could grow for the list.
    pub fn refused(&self) -> &[RunFault]
        ensures { result.now ≡ faults_of self.now }
    {
        &self.refused
    }
}

impl<'a> Opens for MemoryTexts<'a> {
    type File = MemorySource<'a>;

    ghost contents = { λ texts. told_by texts };

    fn open(&self, name: &str) -> Result<MemorySource<'a>, LoadFault> {
        match self.files.contents(name) {
            Some(bytes) => Ok(MemorySource::new(bytes)),
            None => Err(LoadFault::Unreadable),
        }
    }
}

impl<'a> Texts<'a> for MemoryTexts<'_> {
    ghost refused = { λ texts. refusals_told_by texts };

    fn begin(&mut self, _order: &Order<'a>) {}

    /// Records the fault, if memory can grow for it.
    fn refuse(&mut self, _name: &str, fault: RunFault)
        ensures noted { Notes fault self.old self.new }
        ensures refused { refusals_told_by self.new
            ≡ option_map (λ before. before ++ (_name.now, fault) ∷ []) (refusals_told_by self.old) }
        ensures contents { told_by self.new ≡ told_by self.old }
    {
        let _ = self.refused.push(fault);
    }
}

/// No texts: none can be opened, and nothing is reported.
#[derive(Drop)]
pub(crate) struct NoTexts;

impl Opens for NoTexts {
    type File = MemorySource<'static>;

    ghost contents = { λ texts name. Some None };

    fn open(&self, _name: &str) -> Result<MemorySource<'static>, LoadFault> {
        Err(LoadFault::Unreadable)
    }
}

impl<'a> Texts<'a> for NoTexts {
    ghost refused = { λ texts. None };

    fn begin(&mut self, _order: &Order<'a>) {}

    fn refuse(&mut self, _name: &str, _fault: RunFault) {}
}
