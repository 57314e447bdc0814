//! Sources of files.

ghost use Rattle.std.specs.Prelude.{◌≡◌, ℕ, List, Option};
ghost use Rattle.lbk_files.specs.Store.{Loads, counts_of};

use std::alloc::Global;

/// Why a file is not loaded.
#[derive(Clone, Copy, Debug, PartialEq, Eq)]
pub enum LoadFault {
    /// It cannot be opened or read.
    Unreadable,
    /// An allocation failed.
    Memory,
}

/// Files by their names. It counts loads, and those that ran out of memory.
///
/// Counts saturate at `u64::MAX`.
///
/// ```rust
/// let ending = run(alloc, words, &mut store, reader, writer);
/// (ending, store.loads())
/// ```
pub trait Store {
    // The content of the file with a name, if the store tells it; an inner `None` is a file that cannot be read.
    ghost file: { Self → List ℕ → Option (Option (List ℕ)) };

    ghost load_count: { Self → ℕ };

    ghost refusal_count: { Self → ℕ };

    /// The first `most + 1` bytes of a file, or all of them if it has fewer.
    ///
    /// Returns `Unreadable` if it cannot be opened or read, and `Memory` if memory could not grow. No load changes what
    /// the store tells.
    fn load(&mut self, alloc: Global, name: &str, most: usize) -> Result<Vec<u8>, LoadFault>
        ensures loads { Loads (file self.old name.now) most (counts_of (load_count self.old) (refusal_count self.old))
            (counts_of (load_count self.new) (refusal_count self.new)) result }
        ensures files { file self.new ≡ file self.old };

    /// How many loads were made, including failed ones.
    fn loads(&self) -> u64
        ensures { result ≡ load_count self.now };

    /// How many loads ran out of memory.
    fn refusals(&self) -> u64
        ensures { result ≡ refusal_count self.now };
}
