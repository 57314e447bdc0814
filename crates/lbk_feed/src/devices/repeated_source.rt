//! A source of one repeated byte, for inputs that are too long to hold.
#![tactic(auto, unfolding(crate::specs::RepeatedSource::repeated_bytes, crate::specs::RepeatedSource::repeated_tally))]

ghost use Rattle.std.specs.Prelude.{◌≡◌, ◌<◌, ◌≤◌, [], ◌++◌, min, length, take, replicate, Some, IfOk, IsOk};
ghost use Rattle.lbk_feed.specs.Devices.{Takes};
ghost use Rattle.lbk_feed.specs.Tally.{CountsRead, IsFresh, reads_in};
ghost use Rattle.lbk_feed.specs.RepeatedSource.{repeated_bytes, repeated_tally};

use crate::tally::Tally;
use crate::traits::{Failed, Source};

/// A source that repeats one byte, without a buffer.
#[derive(Drop)]
pub struct RepeatedSource {
    byte: u8,
    left: u64,
    tally: Tally,
}

impl RepeatedSource {
    /// A source of `count` times `byte` that fills the buffer in each read.
    pub fn new(byte: u8, count: u64) -> RepeatedSource
        ensures bytes { repeated_bytes result ≡ replicate count byte }
        ensures fresh { IsFresh (repeated_tally result) }
    {
        RepeatedSource {
            byte,
            left: count,
            tally: Tally::new(),
        }
    }

    fn give(&mut self, buf: &mut [u8]) -> usize
        ensures within { result ≤ length buf.old }
        ensures size { result ≡ min (length (repeated_bytes self.old)) (length buf.old) }
        ensures bytes { repeated_bytes self.old ≡ take result buf.new ++ repeated_bytes self.new }
        ensures end { result ≡ 0 → 0 < length buf.old → repeated_bytes self.new ≡ [] }
        ensures tally { repeated_tally self.new ≡ repeated_tally self.old }
    {
        let n = self.left.min(buf.len() as u64) as usize;
        buf[..n].fill(self.byte);
        self.left -= n as u64;
        n
    }
}

impl Source for RepeatedSource {
    ghost unread = { λ s. Some (repeated_bytes s) };

    ghost reads_made = { λ s. reads_in (repeated_tally s) };

    ghost failure_count = { λ s. (repeated_tally s).failures };

    ghost has_ended = { λ s. (repeated_tally s).ended };

    /// Never fails. Returns as many bytes as the buffer and the remaining bytes allow.
    fn read(&mut self, buf: &mut [u8]) -> Result<usize, Failed>
        ensures bytes { Takes (Some (repeated_bytes self.old)) (Some (repeated_bytes self.new)) result buf.new }
        ensures counts { CountsRead (repeated_tally self.old) (repeated_tally self.new) result (length buf.old) }
        ensures ok { IsOk result }
        ensures size { IfOk result (λ n. n ≡ min (length (repeated_bytes self.old)) (length buf.old)) }
    {
        let outcome = Ok(self.give(buf));
        self.tally.note_read(&outcome, buf.len());
        outcome
    }

    fn reads(&self) -> u64 {
        self.tally.reads
    }

    fn failures(&self) -> u64 {
        self.tally.failures
    }

    fn ended(&self) -> bool {
        self.tally.ended
    }
}
