//! Readers and writers that tell what one call of them is.
//!
//! What std says of a read is also true of a read that fails and one more, so over `Read` no contract refuses a device
//! that reads again. Over `OneRead` one does: a device knows nothing of `is_one_read` but that `read_once` keeps to it.

ghost use Rattle.std.specs.Prelude.{ℕ, List, Option, Result, ⊤};
ghost use Rattle.std.specs.Io.{ReadsAtMost, WritesAtMost};
ghost use Rattle.std.specs.Io.KnownBytes.{Keeps, ReadConsumes, WriteAppends};
ghost use Rattle.std.specs.declared.io.Error.{Error};

use std::io::{self, Read, Write};

/// A reader that tells what one read is. Each reader of std is one.
pub trait OneRead {
    // The bytes that are still unread, if the reader tells them.
    ghost remaining: { Self → Option (List ℕ) };

    // One read of the first reader may have this result, and leave the second.
    ghost is_one_read: { Self → Result ℕ Error → Self → Type 0 };

    /// Makes one read.
    fn read_once(&mut self, buf: &mut [u8]) -> io::Result<usize>
        ensures bound { ReadsAtMost result buf.new }
        ensures bytes { ReadConsumes (remaining self.old) (remaining self.new) result buf.new }
        ensures one { is_one_read self.old result self.new };
}

/// A writer that tells what one write is. Each writer of std is one.
pub trait OneWrite {
    // The bytes that the writer holds, if it tells them.
    ghost contents: { Self → Option (List ℕ) };

    // One write of the first writer may have this result, and leave the second.
    ghost is_one_write: { Self → Result ℕ Error → Self → Type 0 };

    /// Makes one write.
    fn write_once(&mut self, buf: &[u8]) -> io::Result<usize>
        ensures bound { WritesAtMost result buf.now }
        ensures bytes { WriteAppends (contents self.old) (contents self.new) result buf.now }
        ensures one { is_one_write self.old result self.new };

    /// Passes on all that was written.
    fn flush_once(&mut self) -> io::Result<()>
        ensures { Keeps (contents self.old) (contents self.new) };
}

impl<R: Read> OneRead for R {
    ghost remaining = { R.remaining };

    // std says no more of one read than the other clauses. That `read_once` makes one is read in its body.
    ghost is_one_read = { λ _ _ _. ⊤ };

    fn read_once(&mut self, buf: &mut [u8]) -> io::Result<usize> {
        self.read(buf)
    }
}

impl<W: Write> OneWrite for W {
    ghost contents = { W.contents };

    // As for a read.
    ghost is_one_write = { λ _ _ _. ⊤ };

    fn write_once(&mut self, buf: &[u8]) -> io::Result<usize> {
        self.write(buf)
    }

    fn flush_once(&mut self) -> io::Result<()> {
        self.flush()
    }
}
