//! The breaks of a text, a block at a time or one after another.

ghost use Rattle.std.specs.Prelude.{◌≡◌, length, min, take, drop};
ghost use Rattle.std.specs.Iterator.{YieldsFirst, item_count};
ghost use Rattle.std.specs.Str.{chars};
ghost use Rattle.lbk_rules.specs.Breaks.{breaks};

use crate::kept::{Kept, NONE_FOUND};
use lbk_rules::{Break, CellSource, Profile};
use std::marker::Model;

/// The breaks of a text: its positions after the first where a line may or must end (UAX #14, section 3), the last
/// being its end; an empty text has none. The text is one, whatever its paragraphs. No memory is taken, and time grows
/// with the length of the text.
///
/// ```rust
/// for found in Breaks::new(&cells, text, Profile::First) {
///     lines.push_str(text.get(start..found.at).unwrap_or(""))?;
///     lines.push(if found.kind == Kind::Must { '!' } else { '÷' })?;
///     start = found.at;
/// }
/// ```
#[derive(Drop)]
pub struct Breaks<'a, C: CellSource> {
    cells: &'a C,
    profile: Profile,
    text: &'a str,
    kept: Kept,
}

// Its value is the list of the breaks that are left.
impl<'a, C: CellSource> Model for Breaks<'a, C> {
    ghost use Rattle.std.specs.Prelude.{List};
    ghost use Rattle.lbk_rules.specs.declared.Break.{Break};
    ghost use Rattle.lbk_passage.specs.Found.{IsKept, to_give};

    ghost Value = { List Break };

    ghost view = { λ b. to_give b.profile (C.cell_of b.cells.now) b.text.now b.kept };

    ghost invariant = { λ b. IsKept b.profile (C.cell_of b.cells.now) b.text.now b.kept };
}

impl<'a, C: CellSource> Breaks<'a, C> {
    /// All breaks of a text by these cells and the rules of the profile (UAX #14, section 6).
    pub fn new(cells: &'a C, text: &'a str, profile: Profile) -> Breaks<'a, C>
        ensures { result ≡ breaks profile (C.cell_of cells.now) (chars text.now) }
    {
        Breaks {
            cells,
            profile,
            text,
            kept: NONE_FOUND,
        }
    }

    /// Writes the next breaks to the front of the block, as many as it holds or all that are left, and returns how
    /// many: 0 at the end, or if the block has no room. The entries of the block after them are unspecified.
    pub fn fill(&mut self, block: &mut [Break]) -> usize
        ensures count { result ≡ min (length block.old) (length self.old) }
        ensures front { take result block.new ≡ take result self.old }
        ensures rest { self.new ≡ drop result self.old }
    {
        self.kept.fill(self.cells, self.profile, self.text, block)
    }
}

impl<'a, C: CellSource> Iterator for Breaks<'a, C> {
    type Item = Break;

    ghost next_gives = { YieldsFirst (λ to_come. to_come) };

    ghost remaining = { item_count (λ to_come. to_come) };

    /// The next break, or none at the end. Many are found faster by `fill`.
    fn next(&mut self) -> Option<Break> {
        if !self.kept.hold(self.cells, self.profile, self.text) {
            return None;
        }
        Some(self.kept.give())
    }
}
