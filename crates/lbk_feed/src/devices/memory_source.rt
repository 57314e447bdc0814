//! A source over bytes in memory, with reads of given sizes, and one that fails.
#![tactic(auto, unfolding(crate::specs::MemorySource::source_bytes, crate::specs::MemorySource::source_sizes, crate::specs::MemorySource::failing_read, crate::specs::MemorySource::source_tally))]

ghost use Rattle.std.specs.Prelude.{◌≡◌, [], length, Some};
ghost use Rattle.lbk_feed.specs.Tally.{CountsRead, reads_in};
ghost use Rattle.lbk_feed.specs.MemorySource.{Gives, IsSourceOf, source_bytes, source_sizes, next_size_of, later_sizes};
ghost use Rattle.lbk_feed.specs.MemorySource.{failing_read, source_tally};

use crate::tally::Tally;
use crate::traits::{Failed, Source};

/// A source over bytes in memory.
#[derive(Drop)]
pub struct MemorySource<'a> {
    rest: &'a [u8],
    sizes: &'a [usize],
    failing: Option<u64>,
    tally: Tally,
}

impl<'a> MemorySource<'a> {
    /// A source of `bytes` that fills the buffer in each read.
    pub fn new(bytes: &'a [u8]) -> MemorySource<'a>
        ensures { IsSourceOf bytes.now [] result }
    {
        MemorySource::cut(bytes, &[])
    }

    /// A source of `bytes` with reads of these sizes in turn; the last size is that of all later reads.
    ///
    /// A read returns less if the buffer is smaller or the bytes end. A size of 0 means 1.
    pub fn cut(bytes: &'a [u8], sizes: &'a [usize]) -> MemorySource<'a>
        ensures { IsSourceOf bytes.now sizes.now result }
    {
        MemorySource {
            rest: bytes,
            sizes,
            failing: None,
            tally: Tally::new(),
        }
    }

    /// The same source with a failing read: the one with this number, counted from 0. The next read continues.
    pub fn failing_at(self, read: u64) -> MemorySource<'a>
        ensures bytes { source_bytes result ≡ source_bytes self.entry }
        ensures sizes { source_sizes result ≡ source_sizes self.entry }
        ensures failing { failing_read result ≡ Some read }
        ensures tally { source_tally result ≡ source_tally self.entry }
    {
        MemorySource {
            failing: Some(read),
            ..self
        }
    }

    /// The size limit of the next read.
    fn next_size(&mut self) -> usize
        ensures size { result ≡ next_size_of (source_sizes self.old) }
        ensures sizes { source_sizes self.new ≡ later_sizes (source_sizes self.old) }
        ensures bytes { source_bytes self.new ≡ source_bytes self.old }
        ensures failing { failing_read self.new ≡ failing_read self.old }
        ensures tally { source_tally self.new ≡ source_tally self.old }
    {
        match self.sizes {
            [] => usize::MAX,
            [last] => (*last).max(1),
            [first, later @ ..] => {
                self.sizes = later;
                (*first).max(1)
            }
        }
    }

    fn give(&mut self, buf: &mut [u8]) -> Result<usize, Failed>
        ensures gives { Gives self.old self.new (length buf.old) buf.new result }
        ensures tally { source_tally self.new ≡ source_tally self.old }
    {
        if self.failing == Some(self.tally.reads) {
            return Err(Failed);
        }
        let n = self.next_size().min(buf.len()).min(self.rest.len());
        let (front, later) = self.rest.split_at(n);
        buf[..n].copy_from_slice(front);
        self.rest = later;
        Ok(n)
    }
}

impl Source for MemorySource<'_> {
    ghost unread = { λ s. Some (source_bytes s) };

    ghost reads_made = { λ s. reads_in (source_tally s) };

    ghost failure_count = { λ s. (source_tally s).failures };

    ghost has_ended = { λ s. (source_tally s).ended };

    /// Fails exactly if it is the failing read. Otherwise returns as many bytes as the next size, the buffer and the
    /// remaining bytes allow.
    fn read(&mut self, buf: &mut [u8]) -> Result<usize, Failed>
        ensures gives { Gives self.old self.new (length buf.old) buf.new result }
        ensures counts { CountsRead (source_tally self.old) (source_tally self.new) result (length buf.old) }
    {
        let outcome = self.give(buf);
        self.tally.note_read(&outcome, buf.len());
        outcome
    }

    fn reads(&self) -> u64 {
        self.tally.reads
    }

    fn failures(&self) -> u64 {
        self.tally.failures
    }

    fn ended(&self) -> bool {
        self.tally.ended
    }
}
