//! Truncated property files.

ghost use Rattle.std.specs.Prelude.{◌≡◌};
ghost use Rattle.lbk_files.specs.Store.{Loads, counts_of};

use super::hints;
use lbk_args::{FileName, PropertyValues};
use lbk_files::{LoadFault, Store};
use lbk_ucd::{cut_text, is_cut};
use std::alloc::Global;
use std::cell::Cell;

/// For each of the four files, in the order of their loads, whether an option names it.
pub type Named = Cell<[bool; 4]>;

/// Which of the four an option names.
pub fn named(values: &PropertyValues<'_>) -> [bool; 4] {
    let PropertyValues::Files(files) = values else {
        return [false; 4];
    };
    [
        is_named(&files.line_break),
        is_named(&files.east_asian),
        is_named(&files.category),
        is_named(&files.emoji),
    ]
}

fn is_named(file: &FileName<'_>) -> bool {
    matches!(file, FileName::Given(_))
}

/// A store that says on standard error which file named by an option is truncated. (One in a folder is refused.)
#[derive(Drop)]
pub struct Watching<'a, S> {
    rt: &'a HostRuntime,
    inner: S,
    named: &'a Named,
}

impl<'a, S> Watching<'a, S> {
    pub fn new(rt: &'a HostRuntime, inner: S, named: &'a Named) -> Watching<'a, S> {
        Watching { rt, inner, named }
    }
}

impl<'a, S: Store> Store for Watching<'a, S> {
    ghost file = { λ store. S.file store.inner };

    ghost load_count = { λ store. S.load_count store.inner };

    ghost refusal_count = { λ store. S.refusal_count store.inner };

    fn load(&mut self, alloc: Global, name: &str, most: usize) -> Result<Vec<u8>, LoadFault> {
        let number = self.inner.loads();
        let loaded = self.inner.load(alloc, name, most);
        if let Ok(bytes) = &loaded {
            let is_named = number < 4 && self.named.get()[number as usize];
            // (a file that is too long is refused)
            if is_named && bytes.len() <= most && is_cut(bytes) {
                let _ = eprintln!(self.rt; "lbk: {name}: warning: {}; {}", cut_text(), hints::CUT);
            }
        }
        loaded
    }

    fn loads(&self) -> u64 {
        self.inner.loads()
    }

    fn refusals(&self) -> u64 {
        self.inner.refusals()
    }
}
