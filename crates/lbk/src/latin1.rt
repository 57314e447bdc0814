//! Texts that may be Latin-1.

ghost use Rattle.std.specs.Prelude.{◌≡◌};

use lbk_feed::{Failed, Source};
use std::cell::Cell;

/// Whether the text that is read may be Latin-1: its first byte that is not ASCII is A0 to FF, the next one is ASCII or
/// missing, and one of the two beside it is a letter.
pub type MayBeLatin1 = Cell<bool>;

/// How much of a text is known.
#[derive(Clone, Copy, Debug, PartialEq, Eq)]
enum Known {
    Nothing,
    /// All bytes are ASCII, and this is the last one.
    Ascii { last: u8 },
    /// All are ASCII, except the last one, which may be Latin-1.
    Other { follows_letter: bool },
    Enough,
}

/// A source that records whether it may be Latin-1. Each read is one read of the inner source, with its bytes and its
/// failure.
#[derive(Drop)]
pub struct Looking<'a, S> {
    inner: S,
    found: &'a MayBeLatin1,
    known: Known,
}

impl<'a, S> Looking<'a, S> {
    /// The source `inner` before its first read.
    pub fn new(inner: S, found: &'a MayBeLatin1) -> Looking<'a, S> {
        Looking {
            inner,
            found,
            known: Known::Nothing,
        }
    }

    /// Records what the next bytes show.
    fn note(&mut self, bytes: &[u8])
        ensures { self.new.inner ≡ self.old.inner }
    {
        if self.known == Known::Nothing {
            self.found.set(false);
        }
        self.known = after(self.known, bytes, self.found);
    }
}

/// What is known after more bytes.
fn after(before: Known, bytes: &[u8], found: &MayBeLatin1) -> Known {
    let last = match (before, bytes.last()) {
        (Known::Enough, _) | (_, None) => return before,
        (_, Some(last)) => *last,
    };
    if matches!(before, Known::Nothing | Known::Ascii { .. }) && bytes.is_ascii() {
        return Known::Ascii { last };
    }
    let mut known = before;
    for byte in bytes {
        known = after_byte(known, *byte, found);
        if known == Known::Enough {
            break;
        }
    }
    known
}

/// What is known after one byte more.
fn after_byte(before: Known, byte: u8, found: &MayBeLatin1) -> Known {
    match before {
        Known::Nothing => after_byte_of_ascii(b'\n', byte, found),
        Known::Ascii { last } => after_byte_of_ascii(last, byte, found),
        Known::Other { follows_letter } => {
            let is_by_letter = follows_letter || byte.is_ascii_alphabetic();
            found.set(byte.is_ascii() && is_by_letter);
            Known::Enough
        }
        Known::Enough => Known::Enough,
    }
}

/// The same if all bytes before it are ASCII.
fn after_byte_of_ascii(last: u8, byte: u8, found: &MayBeLatin1) -> Known {
    if byte.is_ascii() {
        return Known::Ascii { last: byte };
    }
    if byte < 0xA0 {
        return Known::Enough;
    }
    let follows_letter = last.is_ascii_alphabetic();
    found.set(follows_letter);
    Known::Other { follows_letter }
}

impl<'a, S: Source> Source for Looking<'a, S> {
    ghost unread = { λ looking. S.unread looking.inner };

    ghost reads_made = { λ looking. S.reads_made looking.inner };

    ghost failure_count = { λ looking. S.failure_count looking.inner };

    ghost has_ended = { λ looking. S.has_ended looking.inner };

    fn read(&mut self, buf: &mut [u8]) -> Result<usize, Failed> {
        let count = self.inner.read(buf)?;
        self.note(&buf[..count]);
        Ok(count)
    }

    fn reads(&self) -> u64 {
        self.inner.reads()
    }

    fn failures(&self) -> u64 {
        self.inner.failures()
    }

    fn ended(&self) -> bool {
        self.inner.ended()
    }
}
