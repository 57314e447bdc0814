//! What `lbk_feed` exports: devices, and the feed.

use crate::calls::{must, same};
use lbk_feed::devices::{MemorySink, MemorySource};
use lbk_feed::{Device, Failed, Feed, FeedFault, Sink, Source};
use std::io::{Read, Write};

/// Each value: one more or less is an error here.
fn values(feed_fault: FeedFault) {
    match feed_fault {
        FeedFault::Read
        | FeedFault::TextTooLong
        | FeedFault::Spent
        | FeedFault::NotUtf8 { at: _ } => {}
    }
}

fn source<R: Source>(reader: &mut R) -> Result<usize, Failed> {
    let mut room: [u8; 4] = [0; 4];
    let _: (u64, u64, bool) = (reader.reads(), reader.failures(), reader.ended());
    reader.read(&mut room)
}

fn sink<W: Sink>(writer: &mut W) -> Result<usize, Failed> {
    let bytes: &[u8] = b"ab";
    let _: u64 = writer.failures();
    writer.write(bytes)
}

fn read_device<D: Read + Drop>(inner: D) -> Result<usize, Failed> {
    let mut device: Device<D> = Device::new(inner);
    source(&mut device)
}

fn write_device<D: Write + Drop>(inner: D) -> Result<usize, Failed> {
    let mut device: Device<D> = Device::new(inner);
    sink(&mut device)
}

fn piece<R: Source>(feed: &mut Feed, reader: &mut R) -> Result<Option<usize>, FeedFault> {
    let piece: Option<&str> = feed.piece(reader)?;
    Ok(piece.map(|text| text.len()))
}

#[test]
fn feeds(rt: HostRuntime) {
    let bytes: &[u8] = b"ab\xFF";
    let mut reader: MemorySource<'_> = MemorySource::new(bytes);
    let mut feed: Feed = Feed::new();
    same(&rt, &piece(&mut feed, &mut reader), &Ok(Some(2)), &bytes);
    let n: usize = feed.ready().len();
    feed.advance(n);
    let given: u64 = feed.given();
    same(&rt, &given, &2, &bytes);
    let at: u64 = 2;
    let fault = Err(FeedFault::NotUtf8 { at });
    same(&rt, &piece(&mut feed, &mut reader), &fault, &bytes);
}

#[test]
fn devices(rt: HostRuntime) {
    let bytes: &[u8] = b"abcdef";
    same(&rt, &read_device(bytes), &Ok(4), &bytes);
    let file: Vec<u8> = Vec::new(rt.alloc());
    same(&rt, &write_device(file), &Ok(2), &"a file");
    let mut writer: MemorySink = must(&rt, MemorySink::new(rt.alloc(), 1));
    same(&rt, &sink(&mut writer), &Ok(1), &"a sink");
    let written: &[u8] = writer.bytes();
    same(&rt, &written, &b"a".as_slice(), &"a sink");
}
