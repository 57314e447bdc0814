//! A store in memory.

ghost use Rattle.std.specs.Prelude.{◌≡◌, Some, option_map};
ghost use Rattle.lbk_files.specs.MemoryStore.{contents_of, loads_of, named_files, refusals_of};

use super::store::{LoadFault, Store};
use std::alloc::Global;

/// Files by their names; of several with one name, the first.
///
/// ```rust
/// let files: &[(&str, &[u8])] = &[("name", b"bytes")];
/// let mut store = MemoryStore::new(files);
/// ```
#[derive(Drop)]
pub struct MemoryStore<'a> {
    files: &'a [(&'a str, &'a [u8])],
    loads: u64,
    refusals: u64,
}

impl<'a> MemoryStore<'a> {
    /// Files with these names and contents. No other name can be read.
    pub fn new(files: &'a [(&'a str, &'a [u8])]) -> MemoryStore<'a>
        ensures files { named_files result ≡ files.entry.now }
        ensures loads { loads_of result ≡ 0 }
        ensures refusals { refusals_of result ≡ 0 }
    {
        MemoryStore {
            files,
            loads: 0,
            refusals: 0,
        }
    }

    /// The content of the file with a name.
    pub fn contents(&self, name: &str) -> Option<&'a [u8]>
        ensures { contents_of (named_files self.now) name.now ≡ option_map (λ bytes. bytes.now) result }
    {
        for (other, contents) in self.files {
            if *other == name {
                return Some(contents);
            }
        }
        None
    }
}

impl Store for MemoryStore<'_> {
    ghost file = { λ store name. Some (contents_of (named_files store) name) };

    ghost load_count = { λ store. loads_of store };

    ghost refusal_count = { λ store. refusals_of store };

    fn load(&mut self, alloc: Global, name: &str, most: usize) -> Result<Vec<u8>, LoadFault> {
        self.loads = self.loads.saturating_add(1);
        let Some(contents) = self.contents(name) else {
            return Err(LoadFault::Unreadable);
        };
        let len = contents.len().min(most.saturating_add(1));
        let Ok(bytes) = Vec::from_slice(alloc, &contents[..len]) else {
            self.refusals = self.refusals.saturating_add(1);
            return Err(LoadFault::Memory);
        };
        Ok(bytes)
    }

    fn loads(&self) -> u64 {
        self.loads
    }

    fn refusals(&self) -> u64 {
        self.refusals
    }
}
