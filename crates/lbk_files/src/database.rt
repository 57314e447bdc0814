//! The property files in a folder of the Unicode Character Database.

ghost use Rattle.std.specs.Prelude.{◌≡◌, IfOk, string_bytes};
ghost use Rattle.lbk_files.specs.Named.{joined, name_in_database};

use lbk_ucd::Which;
use std::alloc::{AllocError, Global};

/// The path of a file in a folder of the Unicode Character Database, in Unicode's and Debian's layout.
pub fn name_in_database(which: Which) -> &'static str
    ensures { result.now ≡ name_in_database which }
{
    match which {
        Which::LineBreak => "LineBreak.txt",
        Which::EastAsianWidth => "EastAsianWidth.txt",
        Which::Category => "extracted/DerivedGeneralCategory.txt",
        Which::Emoji => "emoji/emoji-data.txt",
    }
}

/// The path of a file in a folder: the folder's name and the path below it.
pub(crate) fn joined(alloc: Global, folder: &str, which: Which) -> Result<String, AllocError>
    ensures { IfOk result (λ name. string_bytes name ≡ joined folder.now which) }
{
    let mut name = String::from_str(alloc, folder)?;
    name.push('/')?;
    name.push_str(name_in_database(which))?;
    Ok(name)
}
