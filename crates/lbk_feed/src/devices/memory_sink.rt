//! A sink into memory of a given size.
#![tactic(auto, unfolding(crate::specs::MemorySink::sink_bytes, crate::specs::MemorySink::sink_room, crate::specs::MemorySink::most_in_a_write, crate::specs::MemorySink::sink_tally))]

ghost use Rattle.std.specs.Prelude.{◌≡◌, ◌<◌, ◌≤◌, [], max, vec_capacity, Some, IfOk};
ghost use Rattle.lbk_feed.specs.Devices.{failures_after};
ghost use Rattle.lbk_feed.specs.Tally.{IsFresh};

use crate::tally::Tally;
use crate::traits::{Failed, Sink};
use std::alloc::{AllocError, Global};

/// A sink into memory that accepts a number of bytes, and then fails.
#[derive(Drop)]
pub struct MemorySink {
    bytes: Vec<u8>,
    room: usize,
    most: usize,
    tally: Tally,
    ghost moves: { 0 < most },
    ghost reserved: { room ≤ vec_capacity bytes },
}

impl MemorySink {
    ghost use Rattle.lbk_feed.specs.MemorySink.{Accepts, sink_bytes, sink_room, most_in_a_write, sink_tally};

    /// A sink that accepts `room` bytes, as many in each write as fit, and then fails.
    ///
    /// Allocates here, and not later.
    pub fn new(alloc: Global, room: usize) -> Result<MemorySink, AllocError>
        ensures bytes { IfOk result (λ s. sink_bytes s ≡ []) }
        ensures room { IfOk result (λ s. sink_room s ≡ room) }
        ensures most { IfOk result (λ s. most_in_a_write s ≡ usize.MAX) }
        ensures fresh { IfOk result (λ s. IsFresh (sink_tally s)) }
    {
        Ok(MemorySink {
            bytes: Vec::with_capacity(alloc, room)?,
            room,
            most: usize::MAX,
            tally: Tally::new(),
        })
    }

    /// The same sink with at most `most` bytes in a write; 0 means 1.
    pub fn at_most(self, most: usize) -> MemorySink
        ensures bytes { sink_bytes result ≡ sink_bytes self }
        ensures room { sink_room result ≡ sink_room self }
        ensures most { most_in_a_write result ≡ max most 1 }
        ensures tally { sink_tally result ≡ sink_tally self }
    {
        let MemorySink {
            bytes,
            room,
            most: _,
            tally,
        } = self;
        MemorySink {
            bytes,
            room,
            most: most.max(1),
            tally,
        }
    }

    /// The bytes that were written.
    pub fn bytes(&self) -> &[u8]
        ensures { result.now ≡ sink_bytes self.now }
    {
        self.bytes.as_slice()
    }

    fn take(&mut self, bytes: &[u8]) -> Result<usize, Failed>
        ensures accepts { Accepts self.old self.new bytes.now result }
        ensures tally { sink_tally self.new ≡ sink_tally self.old }
    {
        let room = self.room.saturating_sub(self.bytes.len());
        let n = bytes.len().min(self.most).min(room);
        if n == 0 && !bytes.is_empty() {
            return Err(Failed);
        }
        match self.bytes.extend_from_slice(&bytes[..n]) {
            Ok(()) => Ok(n),
            Err(_) => unreachable!(),
        }
    }
}

impl Sink for MemorySink {
    ghost use Rattle.lbk_feed.specs.MemorySink.{Accepts, sink_bytes, sink_tally};

    ghost written = { λ s. Some (sink_bytes s) };

    ghost failure_count = { λ s. (sink_tally s).failures };

    /// Fails exactly if there is a byte to write and no room left. Otherwise accepts as many bytes as the room and the
    /// limit of a write allow.
    fn write(&mut self, bytes: &[u8]) -> Result<usize, Failed>
        ensures accepts { Accepts self.old self.new bytes.now result }
        ensures failures { (sink_tally self.new).failures ≡ failures_after (sink_tally self.old).failures result }
    {
        let outcome = self.take(bytes);
        self.tally.note_write(&outcome);
        outcome
    }

    fn failures(&self) -> u64 {
        self.tally.failures
    }
}
