//! The buffer for bytes that were read and not yet consumed.

ghost use Rattle.std.specs.Prelude.{◌≤◌};

use crate::traits::{Failed, Source};

/// How many bytes a block holds.
const BLOCK: usize = 4096;

/// A buffer of 4,096 bytes: consumed at the front, filled at the end.
#[derive(Drop)]
pub struct Block {
    bytes: [u8; BLOCK],
    start: usize,
    end: usize,
    ghost ordered: { start ≤ end },
    ghost within: { end ≤ 4096 },
}

impl Block {
    ghost use Rattle.std.specs.Prelude.{◌≡◌, ◌<◌, ◌-◌, ◌++◌, [], length, drop, take};
    ghost use Rattle.lbk_feed.specs.Devices.{count_up, given_by, failures_after, ended_after};
    ghost use Rattle.lbk_feed.specs.Block.{items, used, Fills};

    pub fn new() -> Block
        ensures items { items result ≡ [] }
        ensures used { used result ≡ [] }
    {
        Block {
            bytes: [0; BLOCK],
            start: 0,
            end: 0,
        }
    }

    pub fn as_slice(&self) -> &[u8]
        ensures { result.now ≡ items self.now }
    {
        &self.bytes[self.start..self.end]
    }

    pub fn len(&self) -> usize
        ensures { result ≡ length (items self.now) }
    {
        self.end - self.start
    }

    /// The last n bytes before the held ones; `read_from` drops these.
    pub fn behind(&self, n: usize) -> &[u8]
        requires { n ≤ length (used self.now) }
        ensures { result.now ≡ drop (length (used self.now) - n) (used self.now) }
    {
        &self.bytes[self.start - n..self.start]
    }

    /// Drops the first n bytes.
    pub fn consume(&mut self, n: usize)
        requires { n ≤ length (items self.old) }
        ensures items { items self.new ≡ drop n (items self.old) }
        ensures used { used self.new ≡ used self.old ++ take n (items self.old) }
    {
        self.start += n;
    }

    /// Moves the held bytes to the front, so that all free room is after them.
    fn move_to_front(&mut self)
        ensures items { items self.new ≡ items self.old }
        ensures start { self.new.start ≡ 0 }
    {
        self.bytes.copy_within(self.start..self.end, 0);
        self.end -= self.start;
        self.start = 0;
    }

    /// Reads once, after the held bytes, and returns the number of bytes read.
    pub fn read_from<R: Source>(&mut self, reader: &mut R) -> Result<usize, Failed>
        requires { length (items self.old) < 4096 }
        ensures fills { Fills (items self.old) (items self.new) (R.unread reader.old) (R.unread reader.new) result }
        ensures reads { (R.reads_made reader.new).count ≡ count_up (R.reads_made reader.old).count }
        ensures gave { (R.reads_made reader.new).gave ≡ given_by result }
        ensures failures { R.failure_count reader.new ≡ failures_after (R.failure_count reader.old) result }
        ensures ended { R.has_ended reader.new ≡ ended_after (R.has_ended reader.old) result 1 }
    {
        self.move_to_front();
        let n = reader.read(&mut self.bytes[self.end..])?;
        self.end += n;
        Ok(n)
    }
}
