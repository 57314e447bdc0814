//! A line, and the line that has not ended yet.

ghost use Rattle.std.specs.Prelude.{◌≡◌, ◌+◌, ◌<◌, ◌≤◌, ◌^◌, true, length};
ghost use Rattle.unicode_segmentation.specs.Grapheme.{graphemes};
ghost use Rattle.lbk_wrap.specs.Steps.{IsSmall, grown, grown_all, line_of, open_at};

use crate::measures::{after, is_blank, is_soft_hyphen};
use unicode_segmentation::UnicodeSegmentation;

/// Why a line ends.
#[derive(Clone, Copy, PartialEq, Eq, Debug)]
pub enum LineKind {
    /// It may end there.
    May,
    /// It must end there. The end of the text is such a place.
    Must,
    /// It is cut inside a segment that no line has room for.
    Cut,
}

/// A line of a text. Offsets count bytes of the text.
#[derive(Clone, Copy, PartialEq, Eq, Debug)]
pub struct Line {
    /// Where it begins.
    pub start: usize,
    /// Where the blanks at its end begin, or it ends.
    pub end: usize,
    /// Where the next line begins.
    pub next: usize,
    /// The columns of what shows, up to `end`.
    pub columns: usize,
    /// Why it ends.
    pub kind: LineKind,
}

/// A line that has not ended yet.
#[derive(Clone, Copy)]
pub(crate) struct Open {
    pub(crate) start: usize,
    /// Without the blanks at its end so far.
    pub(crate) end: usize,
    /// With them.
    pub(crate) next: usize,
    /// The column at `end`.
    pub(crate) columns: usize,
    /// The column at `next`.
    pub(crate) column: usize,
    /// Whether a soft hyphen ends at `end`.
    pub(crate) soft: bool,
}

impl Open {
    /// A line that has nothing yet.
    pub(crate) fn at(at: usize) -> Open
        ensures line { result ≡ open_at at }
        ensures small { IsSmall result }
    {
        Open {
            start: at,
            end: at,
            next: at,
            columns: 0,
            column: 0,
            soft: false,
        }
    }

    /// The line with one more cluster.
    #[tactic(auto, unfolding(crate::specs::Steps::grown))]
    pub(crate) fn with(self, tab: usize, cluster: &str) -> Open
        requires tab { (0 < tab) × (tab ≤ 255) }
        requires small { IsSmall self }
        requires room { self.next + length cluster.now < 2 ^ 32 }
        ensures line { result ≡ grown tab self cluster.now }
        ensures small { IsSmall result }
        ensures next { result.next ≡ self.next + length cluster.now }
        ensures start { result.start ≡ self.start }
    {
        let next = self.next + cluster.len();
        let column = after(tab, self.column, cluster);
        if is_blank(cluster) {
            return Open {
                next,
                column,
                ..self
            };
        }
        Open {
            start: self.start,
            end: next,
            next,
            columns: column,
            column,
            soft: is_soft_hyphen(cluster),
        }
    }

    /// The line with the clusters of a segment.
    pub(crate) fn with_all(self, tab: usize, part: &str) -> Open
        requires tab { (0 < tab) × (tab ≤ 255) }
        requires small { IsSmall self }
        requires room { self.next + length part.now < 2 ^ 32 }
        ensures line { result ≡ grown_all tab self (graphemes true part.now) }
        ensures small { IsSmall result }
        ensures next { result.next ≡ self.next + length part.now }
    {
        let mut line = self;
        for cluster in part.graphemes(true) {
            line = line.with(tab, cluster);
        }
        line
    }

    /// The line as it ends here.
    pub(crate) fn ended(self, kind: LineKind) -> Line
        ensures { result ≡ line_of self kind }
    {
        Line {
            start: self.start,
            end: self.end,
            next: self.next,
            columns: self.columns,
            kind,
        }
    }
}
