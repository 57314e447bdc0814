//! Where the property values come from: a version that is built in, a folder, or four files.

ghost use Rattle.std.specs.Prelude.{◌≡◌, option_map};
ghost use Rattle.clap.specs.Words.{found_of, rows_of};
ghost use Rattle.lbk_args.specs.Task.{is_built_in, needs_no_values, own_files, own_files_in};
ghost use Rattle.lbk_args.specs.Task.{values_by, values_in, values_in_folder, values_of};
ghost use Rattle.lbk_args.specs.OwnNames.{own_of};

use super::order::{FileName, FileNames, PropertyValues};
use super::parsing::text;
use clap::ArgMatches;

/// The message for arguments without property values.
const UNNAMED: &str = "\
property values are required: pass --unicode 15.0, the built-in ones,
or --ucd <FOLDER>, or each of
  --line-break <FILE>
  --east-asian <FILE>
  --category <FILE>
  --emoji <FILE>";

/// The message for a version that is not built in.
const OTHER_VERSION: &str = "--unicode <VERSION> must be 15.0, the version of the built-in values";

/// The message for property values by more than one way.
const TWO_WAYS: &str = "--unicode, --ucd and the options of the four files exclude each other";

/// The files that have their own options.
#[derive(Clone, Copy)]
pub(crate) enum OwnFiles<'a> {
    None,
    Some,
    All(FileNames<'a>),
}

/// The property values that the options of a subcommand name; none if they name none, in two ways, or not all of four
/// files. `mark` and `chunk` need no option.
pub(crate) fn values<'a>(name: &str, given: &ArgMatches<'a>) -> Option<PropertyValues<'a>>
    ensures { option_map values_of result ≡ values_in name.now (rows_of (found_of given.now)) }
{
    let unicode = text(given, "unicode");
    values_by(
        needs_none(name),
        unicode,
        text(given, "ucd"),
        own_files(given),
    )
}

/// What is wrong with options that name no property values.
pub(crate) fn cause(given: &ArgMatches<'_>) -> &'static str {
    match (text(given, "unicode"), text(given, "ucd"), own_files(given)) {
        (Some(_), None, OwnFiles::None) => OTHER_VERSION,
        (None, Some(_), OwnFiles::None) | (None, None, _) => UNNAMED,
        _ => TWO_WAYS,
    }
}

/// Whether a subcommand takes the built-in values without an option.
fn needs_none(name: &str) -> bool
    ensures { result ≡ needs_no_values name.now }
{
    name == "mark" || name == "chunk"
}

fn values_by<'a>(
    needs_none: bool,
    unicode: Option<&str>,
    folder: Option<&'a str>,
    own: OwnFiles<'a>,
) -> Option<PropertyValues<'a>>
    ensures { option_map values_of result
        ≡ values_by needs_none (option_map (λ s. s.now) unicode.entry) (option_map (λ s. s.now) folder.entry)
        (own_of own.entry) }
{
    match own {
        OwnFiles::None => match unicode {
            Some(version) => {
                if folder.is_none() && is_built_in(version) {
                    Some(PropertyValues::BuiltIn)
                } else {
                    None
                }
            }
            None => match folder {
                Some(folder) => values_in_folder(folder),
                None => {
                    if needs_none {
                        Some(PropertyValues::BuiltIn)
                    } else {
                        None
                    }
                }
            },
        },
        OwnFiles::Some => None,
        OwnFiles::All(files) => {
            if unicode.is_none() && folder.is_none() {
                Some(PropertyValues::Files(files))
            } else {
                None
            }
        }
    }
}

/// Whether the values of a version are built in.
fn is_built_in(version: &str) -> bool
    ensures { result ≡ is_built_in version.now }
{
    version == "15.0" || version == "15.0.0"
}

/// All four files in a folder. An empty name would mean the root.
fn values_in_folder<'a>(folder: &'a str) -> Option<PropertyValues<'a>>
    ensures { option_map values_of result ≡ values_in_folder folder.entry.now }
{
    if folder.is_empty() {
        return None;
    }
    let file = FileName::InFolder(folder);
    Some(PropertyValues::Files(FileNames {
        line_break: file,
        east_asian: file,
        category: file,
        emoji: file,
    }))
}

/// The files that have their own options.
fn own_files<'a>(given: &ArgMatches<'a>) -> OwnFiles<'a>
    ensures { own_of result ≡ own_files_in (rows_of (found_of given.now)) }
{
    let line_break = text(given, "line-break");
    let east_asian = text(given, "east-asian");
    let category = text(given, "category");
    let emoji = text(given, "emoji");
    own_by(line_break, east_asian, category, emoji)
}

fn own_by<'a>(
    line_break: Option<&'a str>,
    east_asian: Option<&'a str>,
    category: Option<&'a str>,
    emoji: Option<&'a str>,
) -> OwnFiles<'a>
    ensures { own_of result
        ≡ own_files (option_map (λ s. s.now) line_break.entry) (option_map (λ s. s.now) east_asian.entry)
        (option_map (λ s. s.now) category.entry) (option_map (λ s. s.now) emoji.entry) }
{
    match (line_break, east_asian, category, emoji) {
        (None, None, None, None) => OwnFiles::None,
        (Some(line_break), Some(east_asian), Some(category), Some(emoji)) => {
            OwnFiles::All(FileNames {
                line_break: FileName::Given(line_break),
                east_asian: FileName::Given(east_asian),
                category: FileName::Given(category),
                emoji: FileName::Given(emoji),
            })
        }
        _ => OwnFiles::Some,
    }
}
