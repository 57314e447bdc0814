//! The tests, by what they are of, and what several of them share.

mod calls;
mod chunk_lines;
mod chunk_rows;
mod chunks;
mod cuts;
mod devices;
mod failed_reads;
mod feed_calls;
mod feeds;
mod hostile;
mod lines;
mod long_streams;
mod passages;
mod replayed;
mod runs;
mod sizes;
mod spent;
mod stopped_writers;
mod tasks;
mod told;
mod told_rows;
