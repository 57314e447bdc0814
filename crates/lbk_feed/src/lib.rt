//! Devices that read and write bytes, and the feed, which makes well-formed UTF-8 of what a device reads.
#![tactic(auto)]

mod adapter;
mod block;
pub mod devices;
mod faults;
mod intake;
mod judge;
pub mod laws;
mod limits;
pub mod noted;
pub mod one_call;
mod pieces;
mod tally;
mod traits;
mod writes;

pub use adapter::Device;
pub use faults::FeedFault;
pub use limits::{LIMIT_MAX, TEXT_MAX};
pub use pieces::Feed;
pub use traits::{Failed, Sink, Source};
pub use writes::write_all;
