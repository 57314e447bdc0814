//! The property files that line breaking needs, and the tables made from them; the names and digests of the files that
//! Unicode 15.0.0 published, and the texts about wrong ones.
#![tactic(auto)]

mod causes;
mod claim_texts;
mod claims;
mod digests;
mod faults;
mod file;
mod format;
mod gathered;
pub mod laws;
mod names;
mod overlay;
mod property_line;
mod published;
mod ranges;
mod samples;
mod span;
mod tables;
mod taken;
mod which;

pub use causes::cause_text;
pub use claim_texts::{claim_text, cut_text, remedy_text};
pub use claims::is_cut;
pub use digests::{first_unpublished, is_published};
pub use faults::{UcdCause, UcdFault};
pub use file::LONGEST_FILE;
pub use lbk_values::{Category, EastAsian, LineBreak};
pub use names::file_name;
pub use published::{ClaimCause, Version, check_claim, claim_of};
pub use samples::{SAMPLE_CATEGORY, SAMPLE_EAST_ASIAN, SAMPLE_EMOJI, SAMPLE_LINE_BREAK};
pub use tables::{Files, Places, Run, Tables};
pub use which::Which;
