//! The names under which the four files are loaded.

ghost use Rattle.std.specs.Prelude.{◌≡◌, ℕ, List, Option, IfOk, IsTrue, OnErr};
ghost use Rattle.lbk_args.specs.Task.{files_of_names, named_of};
ghost use Rattle.lbk_files.specs.FileFault.{IsAnyClaimed};
ghost use Rattle.lbk_files.specs.Named.{files_of, told_of};
ghost use Rattle.lbk_files.specs.Places.{files_at, told_at};

use super::database::joined;
use lbk_args::{FileName, FileNames};
use lbk_ucd::Which;
use std::alloc::{AllocError, Global};

/// The name under which a file is loaded.
#[derive(Drop)]
pub(crate) enum Place<'a> {
    /// The name in its option.
    Given(&'a str),
    /// The path of a file in a folder, which must be the published one.
    InFolder(String),
}

/// The names of all four.
#[derive(Drop)]
pub(crate) struct Places<'a> {
    pub(crate) line_break: Place<'a>,
    pub(crate) east_asian: Place<'a>,
    pub(crate) category: Place<'a>,
    pub(crate) emoji: Place<'a>,
}

/// The names under which the files are loaded. Returns an error if memory could not grow for the path of a file in a
/// folder.
pub(crate) fn places_of<'a>(alloc: Global, names: &FileNames<'a>) -> Result<Places<'a>, AllocError>
    ensures places { IfOk result (λ places. (file : List ℕ → Option (Option (List ℕ)))
        → files_at file places ≡ files_of file (files_of_names names.now)) }
    ensures refused { OnErr result ((file : List ℕ → Option (Option (List ℕ)))
        → IsAnyClaimed (files_of file (files_of_names names.now))) }
{
    Ok(Places {
        line_break: place_of(alloc, names.line_break, Which::LineBreak)?,
        east_asian: place_of(alloc, names.east_asian, Which::EastAsianWidth)?,
        category: place_of(alloc, names.category, Which::Category)?,
        emoji: place_of(alloc, names.emoji, Which::Emoji)?,
    })
}

fn place_of<'a>(alloc: Global, file: FileName<'a>, which: Which) -> Result<Place<'a>, AllocError>
    ensures place { IfOk result (λ place. (told : List ℕ → Option (Option (List ℕ)))
        → told_at told place ≡ told_of told which (named_of file.entry)) }
    ensures refused { OnErr result ((told : List ℕ → Option (Option (List ℕ)))
        → IsTrue (told_of told which (named_of file.entry)).is_claimed) }
{
    match file {
        FileName::Given(name) => Ok(Place::Given(name)),
        FileName::InFolder(folder) => Ok(Place::InFolder(joined(alloc, folder, which)?)),
    }
}
