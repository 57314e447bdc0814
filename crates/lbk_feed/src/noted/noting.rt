//! Readers and writers of std that record why they failed.
#![tactic(auto, unfolding(crate::specs::Within::within_noting))]

ghost use Rattle.std.specs.Prelude.{◌≡◌};
ghost use Rattle.std.specs.Io.{ReadsAtMost, WritesAtMost};
ghost use Rattle.std.specs.Io.KnownBytes.{ReadConsumes, WriteAppends};
ghost use Rattle.lbk_feed.specs.Within.{within_noting};

use crate::one_call::{OneRead, OneWrite};
use std::cell::Cell;
use std::io::{self, ErrorKind, Read, Write};

/// What a run records about its files, its input and its output, for messages.
#[derive(Drop)]
pub struct Notes {
    /// The kind of the last error.
    pub error: Cell<Option<ErrorKind>>,
    /// Whether the text is the output, too.
    pub is_output: Cell<bool>,
    /// Whether the input begins with the byte order mark of UTF-16.
    pub is_utf16: Cell<bool>,
    /// Whether to record if the input has `!`, as test lines may.
    pub wants_kinds: Cell<bool>,
    /// Whether the input has `!`.
    pub has_kinds: Cell<bool>,
}

impl Notes {
    /// Nothing recorded.
    pub fn new() -> Notes {
        Notes {
            error: Cell::new(None),
            is_output: Cell::new(false),
            is_utf16: Cell::new(false),
            wants_kinds: Cell::new(false),
            has_kinds: Cell::new(false),
        }
    }

    /// Returns the outcome unchanged, and records the kind of its error.
    pub fn noted<T>(&self, outcome: io::Result<T>) -> io::Result<T>
        ensures { result ≡ outcome }
    {
        if let Err(error) = &outcome {
            self.error.set(Some(error.kind()));
        }
        outcome
    }
}

/// A reader or writer of std that records its errors. Each read or write is one of the inner one, with its
/// bytes.
#[derive(Drop)]
pub struct Noting<'a, D> {
    inner: D,
    notes: &'a Notes,
}

impl<'a, D> Noting<'a, D> {
    /// The reader or writer `inner`; `notes` gets its errors.
    pub fn new(inner: D, notes: &'a Notes) -> Noting<'a, D>
        ensures { within_noting result ≡ inner }
    {
        Noting { inner, notes }
    }
}

impl<'a, R: OneRead> Read for Noting<'a, R> {
    ghost remaining = { λ noting. R.remaining (within_noting noting) };

    fn read(&mut self, buf: &mut [u8]) -> io::Result<usize>
        ensures bound { ReadsAtMost result buf.new }
        ensures bytes { ReadConsumes (R.remaining (within_noting self.old)) (R.remaining (within_noting self.new))
            result buf.new }
        ensures one_call { R.is_one_read (within_noting self.old) result (within_noting self.new) }
    {
        self.notes.noted(self.inner.read_once(buf))
    }
}

impl<'a, W: OneWrite> Write for Noting<'a, W> {
    ghost contents = { λ noting. W.contents (within_noting noting) };

    fn write(&mut self, buf: &[u8]) -> io::Result<usize>
        ensures bound { WritesAtMost result buf.now }
        ensures bytes { WriteAppends (W.contents (within_noting self.old)) (W.contents (within_noting self.new))
            result buf.now }
        ensures one_call { W.is_one_write (within_noting self.old) result (within_noting self.new) }
    {
        self.notes.noted(self.inner.write_once(buf))
    }

    fn flush(&mut self) -> io::Result<()> {
        self.notes.noted(self.inner.flush_once())
    }
}
