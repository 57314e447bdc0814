//! A store that opens files by their names.

ghost use Rattle.std.specs.Prelude.{◌≡◌, ℕ, ◌+◌, ◌≤◌, List, Option, vec_len, IfErr, IfOk};
ghost use Rattle.lbk_files.specs.FileStore.{AreLeft, IsRefusalOf, loads_of, opener_of, refusals_of, tells};
ghost use Rattle.lbk_files.specs.Store.{IsFront, IsLoadFault, Loads, counts_of};

use super::front::read_front;
use super::store::{LoadFault, Store};
use lbk_feed::Source;
use std::alloc::Global;

/// Opens files by their names, to read them from the start.
pub trait Opens {
    type File: Source + Drop;

    // The content of a file, if it is known; an inner `None` is a file that cannot be opened.
    ghost contents: { Self → List ℕ → Option (Option (List ℕ)) };

    /// Opens the file with a name.
    ///
    /// Returns `Unreadable` if it cannot be opened, and `Memory` if memory could not grow.
    fn open(&self, name: &str) -> Result<Self::File, LoadFault>
        ensures opened { IfOk result (λ file. AreLeft (contents self.now name.now) (Self.File.unread file)) }
        ensures fault { IfErr result (IsLoadFault (contents self.now name.now)) };
}

/// A store that opens each file and reads its first bytes. Its model does not know the content of files, because a read
/// may fail.
#[derive(Drop)]
pub struct FileStore<'a, O> {
    opener: &'a O,
    loads: u64,
    refusals: u64,
}

impl<'a, O> FileStore<'a, O> {
    /// The files that `opener` opens.
    pub fn new(opener: &'a O) -> FileStore<'a, O>
        ensures opener { opener_of result ≡ opener.entry.now }
        ensures loads { loads_of result ≡ 0 }
        ensures refusals { refusals_of result ≡ 0 }
    {
        FileStore {
            opener,
            loads: 0,
            refusals: 0,
        }
    }
}

impl<'a, O: Opens> Store for FileStore<'a, O> {
    ghost file = { λ store. tells store };

    ghost load_count = { λ store. loads_of store };

    ghost refusal_count = { λ store. refusals_of store };

    /// The first `most + 1` bytes of an open file, or all of them if it has fewer.
    fn load(&mut self, alloc: Global, name: &str, most: usize) -> Result<Vec<u8>, LoadFault>
        ensures front { IfOk result (λ bytes. IsFront (O.contents (opener_of self.old) name.now) most bytes.items) }
        ensures fault { IfErr result (IsRefusalOf O.File.Source (O.contents (opener_of self.old) name.now)) }
        ensures opener { opener_of self.new ≡ opener_of self.old }
        ensures loads { Loads (tells self.old name.now) most (counts_of (loads_of self.old) (refusals_of self.old))
            (counts_of (loads_of self.new) (refusals_of self.new)) result }
        ensures files { tells self.new ≡ tells self.old }
    {
        self.loads = self.loads.saturating_add(1);
        let loaded = front_of(alloc, self.opener, name, most);
        if matches!(loaded, Err(LoadFault::Memory)) {
            self.refusals = self.refusals.saturating_add(1);
        }
        loaded
    }

    fn loads(&self) -> u64 {
        self.loads
    }

    fn refusals(&self) -> u64 {
        self.refusals
    }
}

/// The first `most + 1` bytes of the file with a name, or all of them if it has fewer.
fn front_of<O: Opens>(
    alloc: Global,
    opener: &O,
    name: &str,
    most: usize,
) -> Result<Vec<u8>, LoadFault>
    ensures front { IfOk result (λ bytes. IsFront (O.contents opener.now name.now) most bytes.items) }
    ensures fault { IfErr result (IsRefusalOf O.File.Source (O.contents opener.now name.now)) }
    ensures within { IfOk result (λ bytes. vec_len bytes ≤ most + 1) }
{
    let mut file = opener.open(name)?;
    read_front(alloc, &mut file, most)
}
