//! The tasks that a command line can ask for.

use lbk_values::Profile;

/// The way a property file is named.
#[derive(Clone, Copy, Debug)]
pub enum FileName<'a> {
    /// By the option for this file.
    Given(&'a str),
    /// By `--ucd`: this file in a folder of the Unicode Character Database.
    InFolder(&'a str),
}

/// The names of the four property files in the arguments.
#[derive(Clone, Copy, Debug)]
pub struct FileNames<'a> {
    pub line_break: FileName<'a>,
    pub east_asian: FileName<'a>,
    pub category: FileName<'a>,
    pub emoji: FileName<'a>,
}

/// Where the property values come from.
#[derive(Clone, Copy, Debug)]
pub enum PropertyValues<'a> {
    /// Those of Unicode 15.0.0 that the program has built in.
    BuiltIn,
    /// Four property files.
    Files(FileNames<'a>),
}

/// The engine to run, with its own options.
#[derive(Clone, Copy, Debug, PartialEq, Eq)]
pub enum Engine {
    /// `mark`, for paragraphs of at most `limit` bytes.
    Mark {
        limit: u32,
    },
    /// `show`, for paragraphs of at most `limit` bytes.
    Show {
        limit: u32,
    },
    /// `segment`, for paragraphs of at most `limit` bytes.
    Segment {
        limit: u32,
    },
    /// `chunk`, with chunks of these sizes, for paragraphs of at most `limit` bytes; `texts` says whether it writes
    /// their texts.
    Chunk {
        limit: u32,
        sizes: Sizes,
        texts: bool,
    },
    /// `replay`; `kinds` says whether required breaks have their own mark.
    Replay {
        kinds: bool,
    },
}

/// The sizes of the chunks of a text.
#[derive(Clone, Copy, Debug, PartialEq, Eq)]
pub struct Sizes {
    /// The most bytes.
    pub most: u32,
    /// The most words; 0 for any number.
    pub words: u32,
    /// A chunk may end early, at a required break, once this many of its bytes are in no earlier chunk.
    pub least: u32,
    /// The most bytes at a chunk's end that the next one repeats.
    pub overlap: u32,
}

/// The passages of a text that begin in a range of its bytes.
#[derive(Clone, Copy, Debug, PartialEq, Eq)]
pub struct Part {
    /// The first byte of the range, counted from 0.
    pub from: u32,
    /// The byte after its last one.
    pub to: u32,
}

/// A task.
#[derive(Debug, Drop)]
pub struct Order<'a> {
    pub engine: Engine,
    pub values: PropertyValues<'a>,
    pub profile: Profile,
    /// The range of passages in each text; all of them without one.
    pub part: Option<Part>,
    /// The sign that `mark` writes where a line may end.
    pub sign: &'a str,
    /// Whether a line with its name comes before the output of each text.
    pub names: bool,
    /// The names of the texts, in order; no name means standard input, as `-` does.
    pub texts: Vec<&'a str>,
}

/// Why the arguments ask for no task.
#[derive(Debug, Drop)]
pub enum WordsFault {
    /// They ask for help or for the version; this is its text.
    Help { text: String },
    /// They are not a command line of the program; the text says why.
    Usage { text: String },
    /// An allocation failed.
    Memory,
}
