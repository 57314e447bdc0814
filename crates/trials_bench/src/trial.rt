//! What a row tries.

use crate::commands::{self, Words};
use crate::inputs::Text;
use crate::on_text::OnText;
use crate::property_files::PropertyFiles;
use crate::quiet::Quiet;
use crate::samples::Sample;
use crate::tables::{self, OfFiles};
use crate::{engines, passages, pushes};
use lbk_notation::{Form, Mark};
use lbk_rules::Profile;
use std::alloc::{AllocError, Global};

/// A call, and its input.
#[derive(Clone, Copy)]
pub enum Trial {
    /// `MemorySink::new` with room for this many bytes.
    Sink(u16),
    /// A call on property files.
    OfFiles(OfFiles, PropertyFiles),
    /// `Segmenter::new` with a limit.
    NewSegmenter(u32),
    /// `push_scalar`.
    PushScalar(char, Form),
    /// `push_mark`.
    PushMark(Mark, Form),
    /// `lbk_args::parse`.
    Parse(Words),
    /// `read_front`, of one byte more than this.
    Front(Text, u16),
    /// `Store::load` of a file, and one byte more than this.
    Load(&'static str, u16),
    /// `prepare`.
    Prepare(Words),
    /// `run` on an input.
    Run(Words, Text),
    /// A call on a text.
    OnText(OnText, Sample),
    /// A call that allocates nothing.
    Quiet(Quiet),
}

impl Trial {
    /// Whether its result depends on the profile.
    pub fn has_profile(self) -> bool {
        match self {
            Trial::NewSegmenter(_) => true,
            Trial::OnText(call, _) => call.has_profile(),
            _ => false,
        }
    }

    /// Makes what the call needs, makes the call, and returns its result as text.
    pub fn run(self, alloc: Global, profile: Profile) -> Result<String, AllocError> {
        match self {
            Trial::Sink(room) => engines::sink(alloc, room),
            Trial::OfFiles(call, files) => tables::run(alloc, call, files),
            Trial::NewSegmenter(limit) => passages::new(alloc, limit, profile),
            Trial::PushScalar(c, form) => pushes::scalar(alloc, c, form),
            Trial::PushMark(mark, form) => pushes::mark(alloc, mark, form),
            Trial::Parse(words) => commands::parse(alloc, words),
            Trial::Front(bytes, most) => commands::front(alloc, bytes, most),
            Trial::Load(name, most) => commands::load(alloc, name, most),
            Trial::Prepare(words) => commands::prepared(alloc, words),
            Trial::Run(words, input) => commands::run(alloc, words, input),
            Trial::OnText(call, sample) => call.run(alloc, sample, profile),
            Trial::Quiet(quiet) => quiet.run(alloc),
        }
    }
}
