//! The names of the four property files.

ghost use Rattle.lbk_ucd.specs.FileNames.{file_name};
ghost use Rattle.lbk_ucd.specs.Texts.{SaysWithin};

use crate::which::Which;

/// The name of a file of the Unicode Character Database, without a folder, in at most 26 bytes.
pub fn file_name(which: Which) -> &'static str
    ensures { SaysWithin 26 (file_name which) result.now }
{
    match which {
        Which::LineBreak => "LineBreak.txt",
        Which::EastAsianWidth => "EastAsianWidth.txt",
        Which::Category => "DerivedGeneralCategory.txt",
        Which::Emoji => "emoji-data.txt",
    }
}
