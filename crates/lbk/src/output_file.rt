//! The file that the output goes to. No text is read from it, because it would grow while it is read.

use lbk_feed::noted::Notes;
use std::fs::{self, Metadata};
use std::io::{self, ErrorKind, Read};
use std::os::unix::fs::MetadataExt;

/// The file of standard output, if it is one, by the system's numbers.
#[derive(Clone, Copy)]
pub struct OutputFile {
    numbers: Option<(u64, u64)>,
}

impl OutputFile {
    /// The file of this run.
    pub fn of_run(rt: &HostRuntime) -> OutputFile {
        let numbers = match fs::metadata(rt, "/dev/stdout") {
            Ok(file) if file.is_file() => Some((file.dev(), file.ino())),
            _ => None,
        };
        OutputFile { numbers }
    }

    /// Whether a file with this metadata is also the output, and not empty.
    pub fn is(&self, file: io::Result<Metadata>) -> bool {
        match file {
            Ok(file) => file.len() > 0 && self.numbers == Some((file.dev(), file.ino())),
            Err(_) => false,
        }
    }
}

/// A reader of a file. If it is also the output, this is recorded, and each read fails.
#[derive(Drop)]
pub struct Barred<'a, R> {
    inner: R,
    is_output: bool,
    notes: &'a Notes,
}

impl<'a, R> Barred<'a, R> {
    pub fn new(inner: R, is_output: bool, notes: &'a Notes) -> Barred<'a, R> {
        Barred {
            inner,
            is_output,
            notes,
        }
    }
}

impl<'a, R: Read> Read for Barred<'a, R> {
    fn read(&mut self, buf: &mut [u8]) -> io::Result<usize> {
        self.notes.is_output.set(self.is_output);
        if self.is_output {
            return Err(io::Error::from(ErrorKind::Other));
        }
        self.inner.read(buf)
    }
}
