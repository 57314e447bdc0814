//! Tests of devices and of the feed, of passages and chunks, of lines and replays of the notation, and of what engines
//! write and refuse with devices that cut, stop and fail.
#![tactic(auto)]

#[cfg(test)]
mod tests;
