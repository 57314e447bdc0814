//! The engines over a text, by their names.

use crate::calls::segmenter_of;
use lbk_cmd::{CmdFault, mark, segment, show};
use lbk_feed::{Sink, Source};
use lbk_passage::{PassageFault, Segmenter};
use lbk_rules::{CellPages, Profile};
use std::alloc::Global;

/// The most bytes of a paragraph by default.
pub const LIMIT: u32 = 65_536;

/// What an engine needs.
#[derive(Clone, Copy)]
pub struct Setting<'a> {
    pub alloc: Global,
    pub cells: &'a CellPages,
    pub limit: u32,
    pub profile: Profile,
}

impl<'a> Setting<'a> {
    pub fn new(alloc: Global, cells: &'a CellPages, profile: Profile) -> Setting<'a> {
        Setting {
            alloc,
            cells,
            limit: LIMIT,
            profile,
        }
    }

    pub fn segmenter(self) -> Result<Segmenter<'a, CellPages>, PassageFault> {
        segmenter_of(self.alloc, self.cells, self.limit, self.profile)
    }
}

/// An engine over a text.
#[derive(Clone, Copy, Debug, PartialEq, Eq)]
pub enum Engine {
    Show,
    Mark,
    Segment,
}

impl Engine {
    /// Only a call.
    pub fn write<R: Source, W: Sink>(
        self,
        setting: Setting<'_>,
        reader: &mut R,
        writer: &mut W,
    ) -> Result<(), CmdFault> {
        let Setting {
            alloc,
            cells,
            limit,
            profile,
        } = setting;
        match self {
            Engine::Show => show(alloc, reader, writer, cells, limit, profile),
            Engine::Mark => mark(alloc, reader, writer, cells, limit, profile),
            Engine::Segment => segment(alloc, reader, writer, cells, limit, profile),
        }
    }
}
