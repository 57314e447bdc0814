//! The library for C: the breaks and the words of a text by calls that C, C++, Rust and Python can make.
//!
//! `lbk_unicode` fills a caller's [`FlatTable`](lbk_rules::FlatTable) once. `lbk_breaks` then goes over a text a block of
//! breaks at a time, from a state that the caller keeps. The library keeps no memory between calls, and there is
//! nothing to free. `include/lbk.h` declares the calls.
#![tactic(auto)]

mod breaking;
mod checking;
mod chunking;
mod claim_texts;
mod claims;
mod class_labels;
mod cuts;
mod faults;
mod interface;
mod labels;
mod laws;
mod marking;
mod packing;
mod safe_breaks;
mod segments;
mod streaming;
mod table_reading;
mod texts;
mod unicode;
mod words;

pub use breaking::{
    lbk_breaks, lbk_breaks_utf16, lbk_breaks_utf32, lbk_positions, lbk_positions_utf16,
    lbk_positions_utf32,
};
pub use checking::lbk_check;
pub use chunking::lbk_chunks;
pub use claim_texts::{lbk_claim_text, lbk_remedy_text};
pub use claims::lbk_is_cut;
pub use class_labels::lbk_class;
pub use cuts::{lbk_cut, lbk_cut_before, lbk_cut_before_utf16, lbk_cut_utf16};
pub use interface::Fault;
pub use labels::lbk_label;
pub use laws::{
    breaks_after_a_break, empty_files_list_no_code, no_step_leads_two_to_one,
    one_changed_number_is_found, only_bytes_from_a_state_on,
};
pub use lbk_bytes::RawBreak;
pub use lbk_calls::{ClassLabel, RuleLabel, State, Text};
pub use lbk_chunks::{Chunk, ChunkState, Limits, Place, chunks_of_cuts};
pub use lbk_streams::{Fed, Stream, bytes_that_could_go_on, joined_parts, only_bytes_near_a_cut};
pub use lbk_units::same_in_each_encoding;
pub use lbk_words::WordState;
pub use marking::lbk_marks;
pub use packing::{lbk_pack, lbk_unpack};
pub use safe_breaks::{lbk_safe_break, safe_break};
pub use segments::{Segment, SegmentState, lbk_segments};
pub use streaming::{lbk_feed, lbk_feed_utf16};
pub use table_reading::{lbk_read, lbk_read_published};
pub use texts::{lbk_cause_text, lbk_file_name, lbk_rule_text, lbk_version};
pub use unicode::lbk_unicode;
pub use words::lbk_words;
