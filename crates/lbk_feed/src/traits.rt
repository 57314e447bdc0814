//! The interfaces of readers and writers.

ghost use Rattle.std.specs.Prelude.{◌≡◌, ℕ, ◌<◌, ◌≤◌, Bool, List, Option, length, IfOk};
ghost use Rattle.lbk_feed.specs.Devices.{Reads, count_up, given_by, failures_after, ended_after, Takes, Puts};

/// A read or a write failed.
#[derive(Clone, Copy, Debug, PartialEq, Eq)]
pub struct Failed;

/// A reader that counts its reads and failures, and knows whether it has ended.
///
/// Counts saturate at `u64::MAX`.
pub trait Source {
    // The bytes that are still unread, if the source tells them.
    ghost unread: { Self → Option (List ℕ) };

    // How many reads were made, and the size of the last one.
    ghost reads_made: { Self → Reads };

    ghost failure_count: { Self → ℕ };

    ghost has_ended: { Self → Bool };

    /// Reads into the front of `buf`, and returns the number of bytes.
    ///
    /// 0 for a `buf` that is not empty means the end. An `Err` takes no byte; after it a source need not tell what is
    /// unread.
    fn read(&mut self, buf: &mut [u8]) -> Result<usize, Failed>
        ensures within { IfOk result (λ n. n ≤ length buf.old) }
        ensures bytes { Takes (unread self.old) (unread self.new) result buf.new }
        ensures reads { (reads_made self.new).count ≡ count_up (reads_made self.old).count }
        ensures gave { (reads_made self.new).gave ≡ given_by result }
        ensures failures { failure_count self.new ≡ failures_after (failure_count self.old) result }
        ensures ended { has_ended self.new ≡ ended_after (has_ended self.old) result (length buf.old) };

    /// How many reads were made, including failed ones.
    fn reads(&self) -> u64
        ensures { result ≡ (reads_made self.now).count };

    /// How many reads failed.
    fn failures(&self) -> u64
        ensures { result ≡ failure_count self.now };

    /// Whether a read into a buffer that is not empty returned 0.
    fn ended(&self) -> bool
        ensures { result ≡ has_ended self.now };
}

/// A writer that counts its failures.
///
/// The count saturates at `u64::MAX`.
pub trait Sink {
    // The bytes that were written, if the sink tells them.
    ghost written: { Self → Option (List ℕ) };

    ghost failure_count: { Self → ℕ };

    /// Writes leading bytes of `bytes`, and returns how many: at least one, unless `bytes` is empty.
    ///
    /// An `Err` wrote nothing.
    fn write(&mut self, bytes: &[u8]) -> Result<usize, Failed>
        ensures within { IfOk result (λ n. n ≤ length bytes.now) }
        ensures some { 0 < length bytes.now → IfOk result (λ n. 0 < n) }
        ensures bytes { Puts (written self.old) (written self.new) result bytes.now }
        ensures failures { failure_count self.new ≡ failures_after (failure_count self.old) result };

    /// How many writes failed.
    fn failures(&self) -> u64
        ensures { result ≡ failure_count self.now };
}
