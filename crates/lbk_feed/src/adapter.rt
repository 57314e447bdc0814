//! A source over a reader of std, and a sink over a writer of std.
#![tactic(auto, unfolding(crate::specs::Device::inner_of, crate::specs::Device::reads_of, crate::specs::Device::failures_of, crate::specs::Device::has_met_end))]

ghost use Rattle.std.specs.Prelude.{◌≡◌, ℕ, ◌<◌, ◌≤◌, false, length, Result, IfOk};
ghost use Rattle.std.specs.declared.io.Error.{Error};
ghost use Rattle.lbk_feed.specs.Devices.{count_up, given_by, failures_after, ended_after, Takes, Puts};
ghost use Rattle.lbk_feed.specs.Device.{inner_of, reads_of, failures_of, has_met_end, Passes, PassesSome};

use super::one_call::{OneRead, OneWrite};
use super::tally::Tally;
use super::traits::{Failed, Sink, Source};

/// A source over any reader of std, or a sink over any writer of std.
///
/// Each read or write is one of the inner reader or writer. An interrupted one fails. A write that accepts no byte of a
/// buffer with bytes also fails.
///
/// ```rust
/// let mut room = [0; 5];
/// let mut device = Device::new(room.as_mut_slice());
/// ```
#[derive(Drop)]
pub struct Device<D> {
    inner: D,
    tally: Tally,
}

impl<D> Device<D> {
    /// The device over `inner`, with no call made yet.
    pub fn new(inner: D) -> Device<D>
        ensures inner { inner_of result ≡ inner }
        ensures reads { reads_of result ≡ record { count = 0; gave = 0 } }
        ensures failures { failures_of result ≡ 0 }
        ensures ended { has_met_end result ≡ false }
    {
        Device {
            inner,
            tally: Tally::new(),
        }
    }

    /// Returns the inner reader or writer.
    pub fn into_inner(self) -> D
        ensures { result ≡ inner_of self }
    {
        let Device { inner, tally: _ } = self;
        inner
    }
}

impl<R: OneRead> Source for Device<R> {
    ghost unread = { λ d. R.remaining (inner_of d) };

    ghost reads_made = { λ d. reads_of d };

    ghost failure_count = { λ d. failures_of d };

    ghost has_ended = { λ d. has_met_end d };

    fn read(&mut self, buf: &mut [u8]) -> Result<usize, Failed>
        ensures within { IfOk result (λ n. n ≤ length buf.old) }
        ensures bytes { Takes (R.remaining (inner_of self.old)) (R.remaining (inner_of self.new)) result buf.new }
        ensures reads { (reads_of self.new).count ≡ count_up (reads_of self.old).count }
        ensures gave { (reads_of self.new).gave ≡ given_by result }
        ensures failures { failures_of self.new ≡ failures_after (failures_of self.old) result }
        ensures ended { has_met_end self.new ≡ ended_after (has_met_end self.old) result (length buf.old) }
        ensures one_call { (outcome : Result ℕ Error)
            × R.is_one_read (inner_of self.old) outcome (inner_of self.new) × Passes outcome result }
    {
        let outcome = self.inner.read_once(buf).map_err(|_| Failed);
        self.tally.note_read(&outcome, buf.len());
        outcome
    }

    fn reads(&self) -> u64 {
        self.tally.reads
    }

    fn failures(&self) -> u64 {
        self.tally.failures
    }

    fn ended(&self) -> bool {
        self.tally.ended
    }
}

impl<W: OneWrite> Sink for Device<W> {
    ghost written = { λ d. W.contents (inner_of d) };

    ghost failure_count = { λ d. failures_of d };

    fn write(&mut self, bytes: &[u8]) -> Result<usize, Failed>
        ensures within { IfOk result (λ n. n ≤ length bytes.now) }
        ensures some { 0 < length bytes.now → IfOk result (λ n. 0 < n) }
        ensures bytes { Puts (W.contents (inner_of self.old)) (W.contents (inner_of self.new)) result bytes.now }
        ensures failures { failures_of self.new ≡ failures_after (failures_of self.old) result }
        ensures one_call { (outcome : Result ℕ Error)
            × W.is_one_write (inner_of self.old) outcome (inner_of self.new) × PassesSome (length bytes.now) outcome result }
    {
        let outcome = match self.inner.write_once(bytes) {
            Ok(0) if !bytes.is_empty() => Err(Failed),
            Ok(n) => Ok(n),
            Err(_) => Err(Failed),
        };
        self.tally.note_write(&outcome);
        outcome
    }

    fn failures(&self) -> u64 {
        self.tally.failures
    }
}
