//! The rows, each with a name `CALL/INPUT` and what it tries. The name of the call says what is required of it when
//! memory is refused.

use crate::commands::Words;
use crate::inputs::Text;
use crate::on_text::OnText;
use crate::property_files::PropertyFiles;
use crate::quiet::Quiet;
use crate::samples::{
    HUGE, KINDS_LINE, KINDS_LINE_DIFFERS, LONG, QUOTED, TEST_LINES, TWO_WORDS, sample_of,
};
use crate::tables::OfFiles;
use crate::trial::Trial;
use lbk_notation::{Form, Mark};
use test_support::engines::Engine;

/// A call on texts: its name, and the names of the texts.
pub type Call = (&'static str, OnText, &'static str);

const COMMON: &str = "empty two-words return quoted long pairs huge paragraphs";

const REFUSED: &str = "too-long ill-formed no-limit";

static CALLS: [Call; 21] = [
    ("next", OnText::Next, COMMON),
    (
        "next",
        OnText::Next,
        "four five two-of-four wide wide-behind",
    ),
    (
        "next",
        OnText::Next,
        "cut ill-formed ill-formed-at-end too-long-first ill-formed-first",
    ),
    (
        "read-line",
        OnText::ReadLine,
        "line comment bad-line quoted-line long-bad-line",
    ),
    ("read-passage-line", OnText::ReadPassageLine, "passage-line"),
    (
        "read-back",
        OnText::ReadBack,
        "empty return long pairs huge",
    ),
    ("write-line", OnText::WriteLine, "empty return long pairs"),
    (
        "mark-text",
        OnText::MarkText,
        "empty return quoted long pairs huge",
    ),
    ("push-line", OnText::PushLine, "return long pairs"),
    (
        "push-passage-line",
        OnText::PushPassageLine,
        "return long pairs",
    ),
    (
        "break-text",
        OnText::BreakText,
        "empty two-words quoted long ill-formed",
    ),
    ("show", OnText::Write(Engine::Show), COMMON),
    ("show", OnText::Write(Engine::Show), REFUSED),
    ("segment", OnText::Write(Engine::Segment), COMMON),
    ("segment", OnText::Write(Engine::Segment), REFUSED),
    (
        "replay",
        OnText::Replay,
        "empty four-lines line line-differs quoted-line many-lines long-bad-line",
    ),
    ("quiet-feed", OnText::Feed, "long ill-formed"),
    ("quiet-decide", OnText::Decide, "long"),
    ("quiet-machines", OnText::Machines, "long"),
    ("quiet-breaks", OnText::Breaks, "long quoted"),
    ("quiet-replay-line", OnText::ReplayLine, "long pairs quoted"),
];

/// The calls on texts.
pub fn calls() -> &'static [Call] {
    &CALLS
}

/// Any other call: its name with that of its input, and what it tries.
pub type Other = (&'static str, Trial);

/// The arguments of a subcommand over named files: the names of the first two, and what follows.
macro_rules! on_files {
    ($subcommand:literal, $line_break:literal, $east_asian:literal $(, $more:literal)*) => {
        &[
            $subcommand,
            "--line-break",
            $line_break,
            "--east-asian",
            $east_asian,
            "--category",
            "C",
            "--emoji",
            "M",
            $($more),*
        ]
    };
}

const SHOW: Words = on_files!("show", "L", "E");

const SHOW_SECOND: Words = on_files!("show", "L", "E", "--profile", "2");

const SHOW_LIMIT: Words = on_files!("show", "L", "E", "--limit", "4");

const SHOW_NO_LIMIT: Words = on_files!("show", "L", "E", "--limit", "0");

const SHOW_MISSING: Words = on_files!("show", "L", "none");

const SHOW_BAD: Words = on_files!("show", "B", "E");

const SEGMENT: Words = on_files!("segment", "L", "E");

const REPLAY: Words = on_files!("replay", "L", "E");

const REPLAY_KINDS: Words = on_files!("replay", "L", "E", "--kinds");

const NONE: Words = &[];

const HELP: Words = &["--help"];

const WRONG: Words = &["bogus"];

/// A row that shares a code point with the row before it.
const OVERLAP: PropertyFiles = PropertyFiles::LineBreak("0041;AL\n0041..0042;ID\n");

/// An unknown value after rows and defaults.
const UNKNOWN_VALUE: PropertyFiles = PropertyFiles::LineBreak(
    "# @missing: 0000..10FFFF; ID\n0041;AL\n0043;AL\n0045;AK\n",
);

static OTHERS: [Other; 58] = [
    ("sink/64", Trial::Sink(64)),
    (
        "tables/samples",
        Trial::OfFiles(OfFiles::Tables, PropertyFiles::Samples),
    ),
    ("tables/overlap", Trial::OfFiles(OfFiles::Tables, OVERLAP)),
    (
        "tables/unknown-value",
        Trial::OfFiles(OfFiles::Tables, UNKNOWN_VALUE),
    ),
    (
        "tables/many-defaults",
        Trial::OfFiles(OfFiles::Tables, PropertyFiles::ManyDefaults),
    ),
    (
        "tables/many-rows",
        Trial::OfFiles(OfFiles::Tables, PropertyFiles::ManyRows),
    ),
    (
        "tables/many-pages",
        Trial::OfFiles(OfFiles::Tables, PropertyFiles::ManyPages),
    ),
    (
        "pages/samples",
        Trial::OfFiles(OfFiles::Pages, PropertyFiles::Samples),
    ),
    (
        "pages/many-defaults",
        Trial::OfFiles(OfFiles::Pages, PropertyFiles::ManyDefaults),
    ),
    (
        "pages/many-rows",
        Trial::OfFiles(OfFiles::Pages, PropertyFiles::ManyRows),
    ),
    (
        "pages/many-pages",
        Trial::OfFiles(OfFiles::Pages, PropertyFiles::ManyPages),
    ),
    (
        "cells/samples",
        Trial::OfFiles(OfFiles::Cells, PropertyFiles::Samples),
    ),
    (
        "cells/unknown-value",
        Trial::OfFiles(OfFiles::Cells, UNKNOWN_VALUE),
    ),
    (
        "cells/many-pages",
        Trial::OfFiles(OfFiles::Cells, PropertyFiles::ManyPages),
    ),
    ("segmenter/16", Trial::NewSegmenter(16)),
    ("segmenter/0", Trial::NewSegmenter(0)),
    ("segmenter/1", Trial::NewSegmenter(1)),
    ("segmenter/greatest", Trial::NewSegmenter(16_777_216)),
    ("segmenter/past-greatest", Trial::NewSegmenter(16_777_217)),
    (
        "push-scalar/four-digits",
        Trial::PushScalar('a', Form::Plain),
    ),
    (
        "push-scalar/six-digits",
        Trial::PushScalar('\u{10FFFF}', Form::Kinds),
    ),
    ("push-mark/plain", Trial::PushMark(Mark::Must, Form::Plain)),
    ("push-mark/kinds", Trial::PushMark(Mark::Must, Form::Kinds)),
    ("parse/none", Trial::Parse(NONE)),
    ("parse/show", Trial::Parse(SHOW)),
    ("parse/show-profile-2", Trial::Parse(SHOW_SECOND)),
    ("parse/show-limit", Trial::Parse(SHOW_LIMIT)),
    ("parse/show-limit-0", Trial::Parse(SHOW_NO_LIMIT)),
    ("parse/segment", Trial::Parse(SEGMENT)),
    ("parse/replay-kinds", Trial::Parse(REPLAY_KINDS)),
    ("parse/help", Trial::Parse(HELP)),
    ("parse/wrong", Trial::Parse(WRONG)),
    ("front/short", Trial::Front(TWO_WORDS, 3)),
    ("front/blocks", Trial::Front(HUGE, 40_000)),
    ("load/all", Trial::Load("B", 100)),
    ("load/front", Trial::Load("B", 3)),
    ("load/missing", Trial::Load("none", 3)),
    ("prepare/show", Trial::Prepare(SHOW)),
    ("prepare/missing", Trial::Prepare(SHOW_MISSING)),
    ("prepare/bad-row", Trial::Prepare(SHOW_BAD)),
    ("run/none", Trial::Run(NONE, TWO_WORDS)),
    ("run/show", Trial::Run(SHOW, TWO_WORDS)),
    ("run/show-long", Trial::Run(SHOW, LONG)),
    ("run/show-profile-2", Trial::Run(SHOW_SECOND, QUOTED)),
    (
        "run/show-limit",
        Trial::Run(SHOW_LIMIT, Text::Of("abc\r\n")),
    ),
    ("run/segment", Trial::Run(SEGMENT, TWO_WORDS)),
    ("run/replay", Trial::Run(REPLAY, TEST_LINES)),
    ("run/replay-kinds", Trial::Run(REPLAY_KINDS, KINDS_LINE)),
    (
        "run/replay-kinds-differs",
        Trial::Run(REPLAY_KINDS, KINDS_LINE_DIFFERS),
    ),
    ("run/missing", Trial::Run(SHOW_MISSING, TWO_WORDS)),
    ("run/bad-row", Trial::Run(SHOW_BAD, TWO_WORDS)),
    ("run/help", Trial::Run(HELP, Text::Of(""))),
    ("run/wrong", Trial::Run(WRONG, Text::Of(""))),
    ("quiet/device", Trial::Quiet(Quiet::Device)),
    ("quiet/look-ups", Trial::Quiet(Quiet::LookUps)),
    ("quiet/cells", Trial::Quiet(Quiet::Cells)),
    ("quiet/test-line", Trial::Quiet(Quiet::TestLine)),
    ("quiet/status", Trial::Quiet(Quiet::Status)),
];

/// All other calls.
pub fn others() -> &'static [Other] {
    &OTHERS
}

/// What the row with this name tries.
pub fn trial_of(name: &str) -> Option<Trial> {
    for (other, trial) in others() {
        if *other == name {
            return Some(*trial);
        }
    }
    let (call, text) = name.split_once('/')?;
    on_text_of(call, text)
}

fn on_text_of(name: &str, text: &str) -> Option<Trial> {
    for (call, on_text, _) in calls() {
        if *call == name {
            return Some(Trial::OnText(*on_text, sample_of(text)?));
        }
    }
    None
}
