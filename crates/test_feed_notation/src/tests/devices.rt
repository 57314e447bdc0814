//! What no clause says about the devices: when they fail, and that they read and write what they should.

use crate::tests::calls::{memory_sink, source_of, write_all_to};
use crate::tests::feed_calls::same;
use lbk_feed::devices::{MemorySink, MemorySource, RepeatedSource};
use lbk_feed::{Device, Failed, Sink, Source};
use std::io;
use std::io::{ErrorKind, Read, Write};
use std::process::Abort;
use std::test::Fail;

/// Reads, and compares the result.
fn check_read<S: Source>(rt: &impl Abort, source: &mut S, want: Result<&str, Failed>) {
    let mut buf = [0; 4];
    match source.read(&mut buf) {
        Ok(n) => same(rt, Ok(&buf[..n]), want.map(|text| text.as_bytes()), "bytes"),
        Err(failed) => same(rt, Err(failed), want, "a failure"),
    }
}

fn check_counts<S: Source>(rt: &impl Abort, source: &S, reads: u64, failures: u64, ended: bool) {
    same(rt, source.reads(), reads, "reads");
    same(rt, source.failures(), failures, "failures");
    same(rt, source.ended(), ended, "ended");
}

// Reads four bytes at a time, and compares each read, then the counts.
fn check_reads<S: Source>(
    rt: &impl Abort,
    source: &mut S,
    want: &[Result<&str, Failed>],
    failures: u64,
    ended: bool,
) {
    let mut reads = source.reads();
    for outcome in want {
        check_read(rt, source, *outcome);
        reads = reads.saturating_add(1);
    }
    check_counts(rt, source, reads, failures, ended);
}

/// The result of a call of a reader or a writer of std.
#[derive(Clone, Copy)]
enum Call {
    /// It returns this byte.
    Gives(u8),
    /// It accepts this many bytes.
    Takes(usize),
    /// It fails for this reason.
    Fails(ErrorKind),
}

/// A reader and writer of std with prescribed results, one for each call; after the last they move nothing.
#[derive(Drop)]
struct Told<'a> {
    calls: &'a [Call],
}

impl Told<'_> {
    fn next_call(&mut self) -> Option<Call> {
        let (call, later) = self.calls.split_first()?;
        self.calls = later;
        Some(*call)
    }
}

impl Read for Told<'_> {
    fn read(&mut self, buf: &mut [u8]) -> io::Result<usize> {
        match (self.next_call(), buf) {
            (Some(Call::Gives(byte)), [first, ..]) => {
                *first = byte;
                Ok(1)
            }
            (Some(Call::Fails(kind)), _) => Err(io::Error::new(kind, "told")),
            _ => Ok(0),
        }
    }
}

impl Write for Told<'_> {
    fn write(&mut self, bytes: &[u8]) -> io::Result<usize> {
        match self.next_call() {
            Some(Call::Takes(n)) => Ok(n.min(bytes.len())),
            Some(Call::Fails(kind)) => Err(io::Error::new(kind, "told")),
            _ => Ok(0),
        }
    }

    fn flush(&mut self) -> io::Result<()> {
        Ok(())
    }
}

#[test]
fn sources(rt: HostRuntime) {
    check_whole_source(&rt);
    check_cut_source(&rt);
    check_repeated_source(&rt);
    check_device(&rt);
}

fn check_whole_source(rt: &impl Abort) {
    let mut whole = MemorySource::new(b"abcde");
    check_reads(rt, &mut whole, &[Ok("abcd"), Ok("e")], 0, false);
    check_reads(rt, &mut whole, &[Ok(""), Ok("")], 0, true);
}

const CUT: [Result<&str, Failed>; 5] = [Ok("ab"), Err(Failed), Ok("c"), Ok("d"), Ok("e")];

fn check_cut_source(rt: &impl Abort) {
    let mut cut = source_of(b"abcde", &[2, 0, 1], Some(1));
    check_reads(rt, &mut cut, &CUT, 1, false);
    check_reads(rt, &mut cut, &[Ok("")], 1, true);
}

fn check_repeated_source(rt: &impl Abort) {
    let mut repeated = RepeatedSource::new(b'r', 6);
    check_reads(rt, &mut repeated, &[Ok("rrrr"), Ok("rr")], 0, false);
    check_reads(rt, &mut repeated, &[Ok("")], 0, true);
}

fn check_device(rt: &impl Abort) {
    let mut device = Device::new(b"abcde".as_slice());
    check_reads(rt, &mut device, &[Ok("abcd"), Ok("e"), Ok("")], 0, true);
}

const READER: [Call; 6] = [
    Call::Gives(b'a'),
    Call::Fails(ErrorKind::Interrupted),
    Call::Gives(b'b'),
    Call::Fails(ErrorKind::Other),
    Call::Fails(ErrorKind::UnexpectedEof),
    Call::Gives(b'c'),
];

/// The result of a device over it.
const READ: [Result<&str, Failed>; 6] = [
    Ok("a"),
    Err(Failed),
    Ok("b"),
    Err(Failed),
    Err(Failed),
    Ok("c"),
];

// Each call of a device is one call of the inner one, and it continues after a failure.
#[test]
fn readers_of_std(rt: HostRuntime) {
    let mut device = Device::new(Told { calls: &READER });
    check_reads(&rt, &mut device, &READ, 3, false);
    check_reads(&rt, &mut device, &[Ok(""), Ok("")], 3, true);
}

// A device asks for as many bytes as there is room, and passes on as many as it gets.
#[test]
fn blocks_of_readers(rt: HostRuntime) {
    let bytes = [b'a'; 5000];
    let mut device = Device::new(bytes.as_slice());
    let mut block = [0; 4096];
    same(&rt, device.read(&mut block), Ok(4096), "a whole block");
    same(&rt, device.read(&mut block), Ok(904), "the rest");
}

// It also passes on all bytes at once.
#[test]
fn blocks_of_writers(rt: HostRuntime) {
    let mut room = [0; 5000];
    let mut device = Device::new(room.as_mut_slice());
    same(&rt, device.write(&[b'a'; 4096]), Ok(4096), "a whole block");
    same(
        &rt,
        device.write(&[b'a'; 4096]),
        Ok(904),
        "what there is room for",
    );
}

/// Writes, and compares the result.
fn check_write<W: Sink>(rt: &impl Abort, sink: &mut W, text: &str, want: Result<usize, Failed>) {
    same(rt, sink.write(text.as_bytes()), want, text);
}

// Writes the text again and again, and compares each result, then the count of failures.
fn check_writes<W: Sink>(
    rt: &impl Abort,
    sink: &mut W,
    text: &str,
    want: &[Result<usize, Failed>],
    failures: u64,
) {
    for outcome in want {
        check_write(rt, sink, text, *outcome);
    }
    same(rt, sink.failures(), failures, "failures");
}

#[test]
fn sinks(rt: HostRuntime) -> Result<(), Fail> {
    check_whole_sink(&rt, memory_sink(rt.alloc(), 5, usize::MAX)?);
    check_small_sink(&rt, memory_sink(rt.alloc(), 5, 2)?);
    check_room(&rt);
    Ok(())
}

fn check_whole_sink(rt: &impl Abort, mut whole: MemorySink) {
    check_writes(rt, &mut whole, "abc", &[Ok(3), Ok(2), Err(Failed)], 1);
    check_writes(rt, &mut whole, "", &[Ok(0)], 1);
    same(rt, whole.bytes(), b"abcab", "written");
}

const SMALL: [Result<usize, Failed>; 4] = [Ok(2), Ok(2), Ok(1), Err(Failed)];

fn check_small_sink(rt: &impl Abort, mut small: MemorySink) {
    check_writes(rt, &mut small, "abc", &SMALL, 1);
    same(rt, small.bytes(), b"ababa", "written");
}

const FULL: [Result<usize, Failed>; 4] = [Ok(3), Ok(2), Err(Failed), Err(Failed)];

fn check_room(rt: &impl Abort) {
    let mut room = [0; 5];
    let mut device = Device::new(room.as_mut_slice());
    check_writes(rt, &mut device, "abc", &FULL, 2);
    check_writes(rt, &mut device, "", &[Ok(0)], 2);
    assert_eq!(rt; room, *b"abcab");
}

const WRITER: [Call; 6] = [
    Call::Takes(1),
    Call::Fails(ErrorKind::Interrupted),
    Call::Takes(2),
    Call::Fails(ErrorKind::BrokenPipe),
    Call::Takes(0),
    Call::Takes(3),
];

/// The result of a device over it.
const WRITTEN: [Result<usize, Failed>; 7] = [
    Ok(1),
    Err(Failed),
    Ok(2),
    Err(Failed),
    Err(Failed),
    Ok(3),
    Err(Failed),
];

#[test]
fn writers_of_std(rt: HostRuntime) {
    let mut device = Device::new(Told { calls: &WRITER });
    check_writes(&rt, &mut device, "abc", &WRITTEN, 4);
}

/// Writes all of a text, and compares the result, then the count of failures.
fn check_write_all(
    rt: &impl Abort,
    sink: &mut MemorySink,
    text: &str,
    want: Result<(), Failed>,
    failures: u64,
) {
    same(rt, write_all_to(sink, text.as_bytes()), want, text);
    same(rt, sink.failures(), failures, "failures");
}

// Short writes write everything, and a failure ends the writing.
#[test]
fn all_of_the_bytes(rt: HostRuntime) -> Result<(), Fail> {
    let mut sink = memory_sink(rt.alloc(), 5, 2)?;
    check_write_all(&rt, &mut sink, "abc", Ok(()), 0);
    check_write_all(&rt, &mut sink, "", Ok(()), 0);
    check_write_all(&rt, &mut sink, "def", Err(Failed), 1);
    same(&rt, sink.bytes(), b"abcde", "written");
    Ok(())
}
