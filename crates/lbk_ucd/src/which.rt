//! The four property files.

/// One of the four property files: LineBreak.txt, EastAsianWidth.txt, DerivedGeneralCategory.txt and emoji-data.txt.
#[derive(Clone, Copy, PartialEq, Eq, Debug)]
pub enum Which {
    LineBreak,
    EastAsianWidth,
    Category,
    Emoji,
}
