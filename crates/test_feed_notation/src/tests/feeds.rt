//! The feed over reads that are cut, that fail and that end, with the expected pieces, counts and offsets.

use crate::tests::calls::source_of;
use crate::tests::feed_calls::{same, settle, use_up};
use lbk_feed::devices::{MemorySource, RepeatedSource};
use lbk_feed::{Feed, FeedFault, Source};
use std::alloc::{AllocError, Global};
use std::process::Abort;
use std::test::Fail;
use test_support::reads::SIZES;

/// What a call of `piece` has to return.
type Answer<'a> = Result<Option<&'a str>, FeedFault>;

/// The same, and how many reads it makes.
#[derive(Clone, Copy)]
struct Row<'a>(Answer<'a>, u64);

/// No piece: the bytes are ill-formed at the first, the second or the third.
const ILL_FIRST: Answer<'static> = Err(FeedFault::NotUtf8 { at: 0 });

const ILL_SECOND: Answer<'static> = Err(FeedFault::NotUtf8 { at: 1 });

const ILL_THIRD: Answer<'static> = Err(FeedFault::NotUtf8 { at: 2 });

/// No piece and no read, because a fault was returned before.
const SPENT: Row<'static> = Row(Err(FeedFault::Spent), 0);

/// Asks for a piece, and compares it.
fn check_piece<R: Source>(rt: &impl Abort, feed: &mut Feed, reader: &mut R, want: Answer<'_>) {
    same(rt, feed.piece(reader), want, "a piece");
}

/// Consumes all that is ready, and compares the count then.
fn check_use_up(rt: &impl Abort, feed: &mut Feed) {
    let given = feed.given();
    let n = feed.ready().len();
    feed.advance(n);
    same(rt, feed.given(), given.saturating_add(n as u64), "given");
}

fn check_row<R: Source>(rt: &impl Abort, feed: &mut Feed, reader: &mut R, row: &Row<'_>) {
    let before = reader.reads();
    check_piece(rt, feed, reader, row.0);
    same(rt, reader.reads().saturating_sub(before), row.1, "reads");
    if row.0.is_err() {
        assert!(rt; feed.ready().is_empty());
    }
    check_use_up(rt, feed);
}

// Calls `piece` for each row, and consumes the whole piece.
fn check_pieces<R: Source>(rt: &impl Abort, reader: &mut R, rows: &[Row<'_>]) {
    let mut feed = Feed::new();
    for row in rows {
        check_row(rt, &mut feed, reader, row);
    }
}

/// A scalar of three bytes between two letters.
const EURO: &[u8] = b"a\xE2\x82\xACb";

/// Bytes, the sizes of their reads, the read that fails, if any, and what the calls of `piece` return.
type Case = (
    &'static [u8],
    &'static [usize],
    Option<u64>,
    &'static [Row<'static>],
);

// After ill-formed bytes there is no read, so one that would fail changes no result.
static PIECES: [Case; 10] = [
    (
        EURO,
        &[2, 1, 2],
        None,
        &[
            Row(Ok(Some("a")), 1),
            Row(Ok(Some("€b")), 2),
            Row(Ok(None), 1),
            Row(Ok(None), 0),
        ],
    ),
    (
        b"\xF0\x9F\x91\xA6",
        &[1],
        None,
        &[Row(Ok(Some("\u{1F466}")), 4), Row(Ok(None), 1)],
    ),
    (
        EURO,
        &[2],
        Some(1),
        &[
            Row(Ok(Some("a")), 1),
            Row(Err(FeedFault::Read), 1),
            SPENT,
            SPENT,
            SPENT,
        ],
    ),
    (
        b"a\xFF",
        &[],
        None,
        &[Row(Ok(Some("a")), 1), Row(ILL_SECOND, 0), SPENT],
    ),
    (
        b"\xF0\x9F\x91",
        &[],
        None,
        &[Row(ILL_FIRST, 2), SPENT, SPENT],
    ),
    (
        b"\xED\xA0\x80",
        &[],
        None,
        &[Row(ILL_FIRST, 1), SPENT, SPENT],
    ),
    (b"\xC0\x80", &[], None, &[Row(ILL_FIRST, 1), SPENT, SPENT]),
    (
        b"ab\xFFc",
        &[1],
        Some(3),
        &[
            Row(Ok(Some("a")), 1),
            Row(Ok(Some("b")), 1),
            Row(ILL_THIRD, 1),
            SPENT,
        ],
    ),
    (
        b"ab\xFFc",
        &[3],
        Some(1),
        &[Row(Ok(Some("ab")), 1), Row(ILL_THIRD, 0), SPENT],
    ),
    (
        b"a\xE2\x41c",
        &[2, 1],
        Some(2),
        &[Row(Ok(Some("a")), 1), Row(ILL_SECOND, 1), SPENT],
    ),
];

#[test]
fn pieces(rt: HostRuntime) {
    for (bytes, sizes, failing, rows) in &PIECES {
        check_pieces(&rt, &mut source_of(bytes, sizes, *failing), rows);
    }
}

/// Settles the feed, and compares the result and how many reads were made in all.
fn check_settle(
    rt: &impl Abort,
    feed: &mut Feed,
    reader: &mut MemorySource<'_>,
    want: Result<bool, FeedFault>,
    reads: u64,
) {
    same(rt, settle(feed, reader), want, "settled");
    same(rt, reader.reads(), reads, "reads");
}

/// Settles the feed twice, compares what is ready, and consumes it.
fn check_settled(
    rt: &impl Abort,
    feed: &mut Feed,
    reader: &mut MemorySource<'_>,
    want: &str,
    reads: u64,
) {
    check_settle(rt, feed, reader, Ok(true), reads);
    check_settle(rt, feed, reader, Ok(true), reads);
    same(rt, feed.ready(), want, "ready");
    use_up(feed);
}

// `settle` returns whether a piece is ready, and lends nothing.
#[test]
fn settled(rt: HostRuntime) {
    let mut reader = MemorySource::cut(EURO, &[2, 1, 2]);
    let mut feed = Feed::new();
    check_settled(&rt, &mut feed, &mut reader, "a", 1);
    check_settled(&rt, &mut feed, &mut reader, "€b", 3);
    check_settle(&rt, &mut feed, &mut reader, Ok(false), 4);
    check_settle(&rt, &mut feed, &mut reader, Ok(false), 4);
}

#[test]
fn settled_by_a_fault(rt: HostRuntime) {
    let mut feed = Feed::new();
    let mut ill = MemorySource::new(b"\xFF");
    let fault = FeedFault::NotUtf8 { at: 0 };
    check_settle(&rt, &mut feed, &mut ill, Err(fault), 1);
    check_settle(&rt, &mut feed, &mut ill, Err(FeedFault::Spent), 1);
}

/// Asks for a piece, which has to be this one, and compares how many reads were made in all.
fn check_text_piece(
    rt: &impl Abort,
    feed: &mut Feed,
    reader: &mut MemorySource<'_>,
    want: &str,
    reads: u64,
) {
    check_piece(rt, feed, reader, Ok(Some(want)));
    same(rt, reader.reads(), reads, "reads");
}

/// Consumes the first of the ready bytes.
fn use_up_front(rt: &impl Abort, feed: &mut Feed, n: usize) {
    assert!(rt; feed.ready().is_char_boundary(n));
    feed.advance(n);
}

// A single scalar is consumed, and the rest of the ready bytes is lent again without a read.
#[test]
fn parts_of_a_piece(rt: HostRuntime) {
    let mut reader = MemorySource::cut(EURO, &[2, 1, 2]);
    let mut feed = Feed::new();
    check_text_piece(&rt, &mut feed, &mut reader, "a", 1);
    use_up_front(&rt, &mut feed, 1);
    check_text_piece(&rt, &mut feed, &mut reader, "€b", 3);
    use_up_front(&rt, &mut feed, 3);
    check_text_piece(&rt, &mut feed, &mut reader, "b", 3);
    same(&rt, feed.ready(), "b", "ready");
    same(&rt, feed.given(), 4, "given");
}

/// How far the pieces of some bytes were compared.
#[derive(Clone, Copy)]
enum Compared<'a> {
    /// Up to a piece, with these bytes after it.
    Piece(&'a [u8]),
    /// Up to the end of the text, or up to a fault.
    End(Result<(), FeedFault>),
}

/// Asks for the next piece, with which the rest has to begin, and consumes it.
fn next_piece<'a>(
    rt: &impl Abort,
    feed: &mut Feed,
    reader: &mut MemorySource<'_>,
    rest: &'a [u8],
) -> Compared<'a> {
    let left = match feed.piece(reader) {
        Ok(Some(piece)) => rest.strip_prefix(piece.as_bytes()),
        Ok(None) => return Compared::End(Ok(())),
        Err(fault) => return Compared::End(Err(fault)),
    };
    assert!(rt; left.is_some(), "a piece that is not in the text");
    use_up(feed);
    Compared::Piece(left.unwrap_or(rest))
}

// All pieces of the bytes, consumed completely, and how they end.
fn check_text(rt: &impl Abort, bytes: &[u8], sizes: &[usize], end: Result<(), FeedFault>) {
    let mut reader = MemorySource::cut(bytes, sizes);
    let mut feed = Feed::new();
    let mut rest = bytes;
    for _ in 0..=bytes.len() {
        match next_piece(rt, &mut feed, &mut reader, rest) {
            Compared::Piece(left) => rest = left,
            Compared::End(found) => {
                same(rt, found, end, "the end");
                assert!(rt; end.is_err() || rest.is_empty());
                return;
            }
        }
    }
    assert!(rt; false, "each piece has a byte");
}

/// A text with its last scalar of three bytes at this offset: complete, and cut off.
fn check_edge(rt: &impl Abort, text: &[u8], at: usize, size: usize) {
    check_text(rt, text, &[size], Ok(()));
    for len in at.saturating_add(1)..at.saturating_add(3) {
        let cut = text.get(..len).unwrap_or(&[]);
        check_text(rt, cut, &[size], Err(FeedFault::NotUtf8 { at: at as u64 }));
    }
}

/// This many letters, and a scalar of three bytes.
fn text_to(alloc: Global, at: usize) -> Result<Vec<u8>, AllocError> {
    let mut text = vec![in alloc; b'a'; at]?;
    text.extend_from_slice("€".as_bytes())?;
    Ok(text)
}

// A scalar at each offset around the end of a block, complete and cut off, in reads of several sizes.
#[test]
fn block_edges(rt: HostRuntime) -> Result<(), Fail> {
    for at in 4090..=4100 {
        let text = text_to(rt.alloc(), at)?;
        for size in &SIZES {
            check_edge(&rt, &text, at, *size);
        }
    }
    Ok(())
}

/// Asks for pieces and consumes them, so often at most. Returns the fault.
fn fault_behind_pieces(
    rt: &impl Abort,
    feed: &mut Feed,
    reader: &mut RepeatedSource,
    most: u64,
) -> Option<FeedFault> {
    for _ in 0..most {
        match feed.piece(reader) {
            Ok(piece) => assert!(rt; piece.is_some(), "the text has no end yet"),
            Err(fault) => return Some(fault),
        }
        use_up(feed);
    }
    None
}

// The longest text, and one byte more: 262,144 full reads and a last one, and none after it.
#[test]
fn longest_text(rt: HostRuntime) {
    let longest = 1_073_741_824u64;
    let mut reader = RepeatedSource::new(b'a', longest + 1);
    let mut feed = Feed::new();
    let fault = fault_behind_pieces(&rt, &mut feed, &mut reader, longest);
    same(&rt, fault, Some(FeedFault::TextTooLong), "the fault");
    same(&rt, feed.given(), longest, "given");
    same(&rt, reader.reads(), 262_145, "reads");
    same(&rt, feed.ready(), "", "ready");
    check_row(&rt, &mut feed, &mut reader, &SPENT);
}

/// Asks for a piece, which has to have so many bytes, and consumes it.
fn check_length(rt: &impl Abort, feed: &mut Feed, reader: &mut RepeatedSource, want: usize) {
    let is_as_long = matches!(feed.piece(reader), Ok(Some(piece)) if piece.len() == want);
    assert!(rt; is_as_long, "a piece of {want} bytes");
    use_up(feed);
}

// A block is filled completely if the reader returns as much.
#[test]
fn full_blocks(rt: HostRuntime) {
    let mut whole = RepeatedSource::new(b'a', 5000);
    let mut feed = Feed::new();
    check_length(&rt, &mut feed, &mut whole, 4096);
    check_length(&rt, &mut feed, &mut whole, 904);
    check_piece(&rt, &mut feed, &mut whole, Ok(None));
}
