//! Calls for tests, without their contracts. A test only proves that it is safe and returns, so it needs no facts about
//! them; without these facts a check takes a fraction of the time.

use lbk_feed::{Feed, FeedFault, Source};
use std::fmt::Debug;
use std::process::Abort;

pub fn settle<R: Source>(feed: &mut Feed, reader: &mut R) -> Result<bool, FeedFault> {
    feed.settle(reader)
}

/// Consumes all that is ready.
pub fn use_up(feed: &mut Feed) {
    let n = feed.ready().len();
    feed.advance(n);
}

/// Compares the result for this with the expected one.
pub fn same<T: Copy + PartialEq + Debug>(rt: &impl Abort, found: T, want: T, what: &str) {
    assert_eq!(rt; found, want, "{what}");
}

/// Compares the result of the call with this number with the expected one.
pub fn same_answer<T: Copy + PartialEq + Debug>(rt: &impl Abort, found: T, want: T, call: u64) {
    assert_eq!(rt; found, want, "call {call}");
}
