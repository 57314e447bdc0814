//! What the lines of a text have in common, over definitions only. Each law is the contract of a function that does
//! nothing.

ghost use Rattle.std.specs.Prelude.{◌≡◌, ℕ, ◌<◌, List, false, [], length};
ghost use Rattle.std.specs.List.{AllByRecursion};
ghost use Rattle.std.specs.Str.{IsUtf8};
ghost use Rattle.lbk_passage.specs.declared.passage.Segment.{Segment};
ghost use Rattle.lbk_wrap.specs.Columns.{Cluster};
ghost use Rattle.lbk_wrap.specs.Cuttings.{AreCutting};
ghost use Rattle.lbk_wrap.specs.Laws.{EndWithMust, IsNarrow, OnlyBlanksHang};
ghost use Rattle.lbk_wrap.specs.Lines.{lines, lines_on, parts_from};
ghost use Rattle.lbk_wrap.specs.Orders.{AreInARow};
ghost use Rattle.lbk_wrap.specs.declared.layout.Layout.{Layout};
ghost use Rattle.lbk_wrap.specs.declared.open.Line.{Line};

/// The lines of a text that ends where a line must, as a passage does, are the whole text: the first begins with it,
/// each of the others where the one before it ends, and the last ends with it.
#[tactic(auto, using(crate::proofs::Ends::lines_whole))]
pub fn lines_are_the_text()
    ensures { (layout : Layout) (text : List ℕ) (segments : List Segment) → IsUtf8 text → AreCutting text segments
        → EndWithMust segments → AreInARow 0 (length text) (lines layout text segments) }
{}

/// Between the end of what shows of a line and the next line are blanks alone.
#[tactic(auto, using(crate::proofs::Ends::only_blanks))]
pub fn only_blanks_hang()
    ensures { (cs : List Cluster) → OnlyBlanksHang cs }
{}

/// A line is never empty, if no segment is.
#[tactic(auto, using(crate::proofs::Lengths::lines_some))]
pub fn no_line_is_empty()
    ensures { (layout : Layout) (text : List ℕ) (segments : List Segment) → IsUtf8 text → AreCutting text segments
        → AllByRecursion (λ s. s.start < s.end) segments
        → AllByRecursion (λ (line : Line). line.start < line.next) (lines layout text segments) }
{}

/// A line is within the columns, or shows one cluster, unless what no line has room for is left whole.
#[tactic(auto, using(crate::proofs::Narrow::lines_narrow))]
pub fn lines_are_narrow()
    ensures { (layout : Layout) (text : List ℕ) (segments : List Segment) → layout.whole ≡ false
        → AllByRecursion (IsNarrow layout) (lines_on layout [] (parts_from 0 text segments)) }
{}
