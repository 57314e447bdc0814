//! Texts, test files, and inputs that are made before allocations are counted.

use lbk_feed::devices::{MemorySink, MemorySource};
use lbk_files::sample_cells;
use lbk_notation::{Form, TestLine};
use lbk_rules::{Cell, CellPages, Kind, Profile, Rule, Verdict, decide_all_in};
use std::alloc::{AllocError, Global};
use test_support::calls::mark_text;
use test_support::cells::cells_of;
use test_support::engines::Setting;

/// The bytes of a text or of a file.
#[derive(Clone, Copy)]
pub enum Text {
    Of(&'static str),
    /// Repeated this often.
    Repeated(&'static str, usize),
    /// Bytes, perhaps ill-formed.
    Bytes(&'static [u8]),
}

impl Text {
    pub fn bytes(self, alloc: Global) -> Result<Vec<u8>, AllocError> {
        match self {
            Text::Of(text) => Vec::from_slice(alloc, text.as_bytes()),
            Text::Bytes(given) => Vec::from_slice(alloc, given),
            Text::Repeated(text, times) => repeated(alloc, text.as_bytes(), times),
        }
    }
}

fn repeated(alloc: Global, text: &[u8], times: usize) -> Result<Vec<u8>, AllocError> {
    let mut bytes = Vec::new(alloc);
    for _ in 0..times {
        bytes.extend_from_slice(text)?;
    }
    Ok(bytes)
}

/// A text's bytes, the cells by the sample files, the limit of a paragraph, the profile and the form of lines. It owns
/// nothing, because a function that owns much takes long to check.
#[derive(Clone, Copy)]
pub struct Input<'a> {
    pub bytes: &'a [u8],
    pub cells: &'a CellPages,
    pub limit: u32,
    pub profile: Profile,
    pub form: Form,
}

impl Input<'_> {
    pub fn setting(&self, alloc: Global) -> Setting<'_> {
        Setting {
            alloc,
            cells: self.cells,
            limit: self.limit,
            profile: self.profile,
        }
    }

    /// The text of the bytes.
    pub fn text(&self) -> &str {
        text_of(self.bytes)
    }

    /// The cells of the text's scalars.
    pub fn cell_list(&self, alloc: Global) -> Result<Vec<Cell>, AllocError> {
        cells_of(alloc, self.cells, self.text())
    }

    /// The text's line: its scalars and the marks of its positions.
    pub fn line(&self, alloc: Global) -> Result<TestLine, AllocError> {
        mark_text(alloc, self.cells, self.text(), self.profile)
    }
}

/// A source of these bytes, three in a read.
pub fn source_of(bytes: &[u8]) -> MemorySource<'_> {
    MemorySource::cut(bytes, &[3])
}

/// Room for all that a row writes.
const ROOM: usize = 2_097_152;

pub fn sink_of(alloc: Global) -> Result<MemorySink, AllocError> {
    MemorySink::new(alloc, ROOM)
}

/// The cells by the sample files, which are well-formed.
pub fn cells(alloc: Global) -> Result<CellPages, AllocError> {
    match sample_cells(alloc) {
        Ok(cells) => Ok(cells),
        Err(_) => Err(AllocError),
    }
}

/// The text of these bytes, which are well-formed.
pub fn text_of(bytes: &[u8]) -> &str {
    str::from_utf8(bytes).unwrap_or("the text of this row is not UTF-8")
}

const BLANK: Verdict = Verdict {
    kind: Kind::Must,
    rule: Rule::Lb31,
};

/// The verdicts at all positions of these cells.
pub fn verdicts_of(
    alloc: Global,
    cells: &[Cell],
    profile: Profile,
) -> Result<Vec<Verdict>, AllocError> {
    let mut verdicts = vec![in alloc; BLANK; cells.len() + 1]?;
    decide_all_in(profile, cells, &mut verdicts);
    Ok(verdicts)
}
