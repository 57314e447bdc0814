//! An input that records its encoding and notation.
#![tactic(auto, unfolding(crate::specs::Within::within_input))]

ghost use Rattle.std.specs.Prelude.{◌≡◌};
ghost use Rattle.lbk_feed.specs.Within.{within_input};

use super::noting::Notes;
use crate::traits::{Failed, Source};

/// A source that records whether it begins with the byte order mark of UTF-16, and, if wanted, whether it has `!`. Each
/// read is one read of the inner source, with its bytes and its failure.
#[derive(Drop)]
pub struct Input<'a, S> {
    inner: S,
    notes: &'a Notes,
    has_begun: bool,
}

impl<'a, S> Input<'a, S> {
    /// The source `inner` before its first read.
    pub fn new(inner: S, notes: &'a Notes) -> Input<'a, S>
        ensures { within_input result ≡ inner }
    {
        Input {
            inner,
            notes,
            has_begun: false,
        }
    }

    /// Records what the next bytes of the input show.
    fn note(&mut self, bytes: &[u8])
        ensures { within_input self.new ≡ within_input self.old }
    {
        if !self.has_begun {
            self.has_begun = true;
            let is_utf16 = matches!(bytes, [0xFF, 0xFE, ..] | [0xFE, 0xFF, ..]);
            self.notes.is_utf16.set(is_utf16);
        }
        if self.notes.wants_kinds.get() && bytes.contains(&b'!') {
            self.notes.has_kinds.set(true);
        }
    }
}

impl<'a, S: Source> Source for Input<'a, S> {
    ghost unread = { λ input. S.unread (within_input input) };

    ghost reads_made = { λ input. S.reads_made (within_input input) };

    ghost failure_count = { λ input. S.failure_count (within_input input) };

    ghost has_ended = { λ input. S.has_ended (within_input input) };

    fn read(&mut self, buf: &mut [u8]) -> Result<usize, Failed> {
        let count = self.inner.read(buf)?;
        self.note(&buf[..count]);
        Ok(count)
    }

    fn reads(&self) -> u64 {
        self.inner.reads()
    }

    fn failures(&self) -> u64 {
        self.inner.failures()
    }

    fn ended(&self) -> bool {
        self.inner.ended()
    }
}
