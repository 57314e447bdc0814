//! The inputs of the layers.

use lbk_passage::LIMIT_MAX;
use lbk_rules::{CellPages, Profile};
use lbk_ucd::Tables;
use std::alloc::Global;
use test_support::engines::Setting;

/// The most bytes of a text that the layers run over.
const TEXT_MOST: usize = 1_000_000;

/// The inputs of the layers: what is made of the property files, and a text.
#[derive(Clone, Copy)]
pub struct Material<'a> {
    pub tables: &'a Tables,
    pub cells: &'a CellPages,
    pub text: &'a str,
}

/// The first profile, and paragraphs of any length.
pub fn setting_of(alloc: Global, cells: &CellPages) -> Setting<'_> {
    Setting {
        alloc,
        cells,
        limit: LIMIT_MAX,
        profile: Profile::First,
    }
}

/// The prefix of a text that the layers run over.
pub fn front_of(text: &str) -> &str {
    text.get(..text.floor_char_boundary(TEXT_MOST))
        .unwrap_or(text)
}
