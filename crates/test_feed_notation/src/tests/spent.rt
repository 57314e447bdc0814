//! Faults of a feed, and no results after them.

use crate::tests::calls::{cut_source, same, source_of, take_piece};
use lbk_feed::devices::RepeatedSource;
use lbk_feed::{Feed, FeedFault, Source};
use std::process::Abort;

/// Takes all pieces up to a fault.
fn take_pieces<R: Source>(feed: &mut Feed, reader: &mut R) -> Result<bool, FeedFault> {
    for _ in 0..400_000 {
        if !take_piece(feed, reader)? {
            return Ok(false);
        }
    }
    Ok(true)
}

/// Takes all pieces up to the expected fault, and calls three times more.
fn check_spent_feed<R: Source>(rt: &impl Abort, reader: &mut R, want: FeedFault) {
    let mut feed = Feed::new();
    let found = take_pieces(&mut feed, reader);
    same(rt, &found, &Err(want), &"a feed");
    let reads = reader.reads();
    for _ in 0..3 {
        let again = take_piece(&mut feed, reader);
        same(rt, &again, &Err(FeedFault::Spent), &"a fault");
    }
    same(rt, &reader.reads(), &reads, &want);
}

// Each reader could continue.
#[test]
fn spent_feeds(rt: HostRuntime) {
    let mut failing = source_of(b"abcdef", &[1], Some(2));
    check_spent_feed(&rt, &mut failing, FeedFault::Read);
    let mut ill_formed = cut_source(b"ab\xFFcdef", &[1]);
    check_spent_feed(&rt, &mut ill_formed, FeedFault::NotUtf8 { at: 2 });
    let mut too_long = RepeatedSource::new(b'a', 1_073_741_830);
    check_spent_feed(&rt, &mut too_long, FeedFault::TextTooLong);
}
