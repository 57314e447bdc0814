//! The feed, and devices over readers and writers of std: calls that allocate nothing.

use crate::counting::{begin, end};
use crate::digest::Digest;
use crate::inputs::Input;
use lbk_feed::devices::MemorySource;
use lbk_feed::{Device, Failed, Feed, FeedFault, Sink, Source, write_all};
use std::alloc::{AllocError, Global};
use std::fmt::Write;

/// More pieces than a row has.
const PIECES: usize = 100_000;

/// `Feed::new`, `ready`, `piece`, `settle`, `advance`, `given`.
pub fn feed(alloc: Global, input: &Input<'_>) -> Result<String, AllocError> {
    let mut source = MemorySource::cut(input.bytes, &[1, 2, 3, 4096]);
    let mut digest = Digest::new();
    begin(alloc);
    let mut feed = Feed::new();
    let fault = add_pieces(&mut digest, &mut feed, &mut source).err();
    let settled = settle(&mut feed, &mut source);
    let given = feed.given();
    end(alloc);
    let reads = source.reads();
    let digest = digest.value();
    format!(in alloc;
        "{given} bytes, {reads} reads, {fault:?}, {settled:?}, digest {digest:016x}\n"
    )
}

fn add_pieces(
    digest: &mut Digest,
    feed: &mut Feed,
    source: &mut MemorySource<'_>,
) -> Result<(), FeedFault> {
    for _ in 0..PIECES {
        if !add_piece(digest, feed, source)? {
            break;
        }
    }
    Ok(())
}

/// Adds the next piece, if there is one, and consumes it.
fn add_piece(
    digest: &mut Digest,
    feed: &mut Feed,
    source: &mut MemorySource<'_>,
) -> Result<bool, FeedFault> {
    let Some(piece) = feed.piece(source)? else {
        return Ok(false);
    };
    digest.add_bytes(piece.as_bytes());
    let ready = feed.ready().len();
    feed.advance(ready);
    Ok(true)
}

fn settle(feed: &mut Feed, source: &mut MemorySource<'_>) -> Result<bool, FeedFault> {
    feed.settle(source)
}

/// `Device::new`, its `read` and `write`, `reads`, `failures`, `ended`; `write_all`.
pub fn device(alloc: Global) -> Result<String, AllocError> {
    let room: Vec<u8> = Vec::with_capacity(alloc, 64)?;
    begin(alloc);
    let read = Reads::make();
    let written = Writes::make(room);
    end(alloc);
    let mut told = read.told(alloc)?;
    written.tell(&mut told, read.failures)?;
    Ok(told)
}

/// The results and the counts of a device over a reader.
#[derive(Clone, Copy)]
struct Reads {
    answers: [Result<usize, Failed>; 3],
    reads: u64,
    ended: bool,
    failures: u64,
}

impl Reads {
    fn make() -> Reads {
        let mut reader = Device::new(b"bytes of a reader".as_slice());
        Reads {
            answers: [read(&mut reader), read(&mut reader), read(&mut reader)],
            reads: reader.reads(),
            ended: reader.ended(),
            failures: Source::failures(&reader),
        }
    }

    fn told(self, alloc: Global) -> Result<String, AllocError> {
        let mut told = String::new(alloc);
        for answer in &self.answers {
            tell_read(&mut told, answer)?;
        }
        tell_counts(&mut told, self.reads, self.ended)?;
        Ok(told)
    }
}

fn tell_read(told: &mut String, answer: &Result<usize, Failed>) -> Result<(), AllocError> {
    write!(told, "{answer:?} ")
}

fn tell_counts(told: &mut String, reads: u64, ended: bool) -> Result<(), AllocError> {
    write!(told, "{reads} {ended}")
}

fn read(reader: &mut Device<&[u8]>) -> Result<usize, Failed> {
    let mut block = [0u8; 16];
    reader.read(&mut block)
}

fn write_some(writer: &mut Device<Vec<u8>>, bytes: &[u8]) -> Result<usize, Failed> {
    writer.write(bytes)
}

fn write_whole(writer: &mut Device<Vec<u8>>, bytes: &[u8]) -> Result<(), Failed> {
    write_all(writer, bytes)
}

/// The results and the counts of a device over a writer.
#[derive(Clone, Copy)]
struct Writes {
    first: Result<usize, Failed>,
    all: Result<(), Failed>,
    failures: u64,
}

impl Writes {
    fn make(room: Vec<u8>) -> Writes {
        let mut writer = Device::new(room);
        Writes {
            first: write_some(&mut writer, b"bytes of "),
            all: write_whole(&mut writer, b"a writer"),
            failures: Sink::failures(&writer),
        }
    }

    fn tell(self, told: &mut String, read_failures: u64) -> Result<(), AllocError> {
        let Writes {
            first,
            all,
            failures,
        } = self;
        writeln!(told, " {first:?} {all:?} ({read_failures}, {failures})")
    }
}
