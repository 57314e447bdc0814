//! Messages for invalid arguments.

use super::one_line::{OneLine, is_escaped};
use super::options::command;
use clap::Error;
use clap::error::ErrorKind;
use std::alloc::{AllocError, Global};

/// Describes the numbers that the options accept.
const NUMBERS: &str = "
Numbers are decimal digits: --limit 1 to 16777216, --from and --to 0 to
4294967295, --profile 1 or 2.
";

const NUMBERS_OF_MARK: &str = "
Numbers are decimal digits: --limit 1 to 16777216, perhaps in K (1024) or M
(1048576), --from and --to 0 to 4294967295, --profile 1 or 2.
";

const NUMBERS_OF_CHUNKS: &str = "
Numbers are decimal digits: --most and --limit 1 to 16777216, --least and
--overlap 0 to 16777216, perhaps in K (1024) or M (1048576), --words 1 to
16777216, --from and --to 0 to 4294967295, --profile 1 or 2.
";

/// The message for arguments that `clap` refuses: its text, and what to do.
pub(crate) fn usage_text(
    alloc: Global,
    words: &[&str],
    error: &Error,
) -> Result<String, AllocError> {
    let told = told(alloc, words, error)?;
    let told = told.as_str();
    let mut text = String::from_str(alloc, "lbk: ")?;
    text.push_str(told.strip_prefix("error: ").unwrap_or(told))?;
    push_hint(&mut text, words, error.kind())?;
    Ok(text)
}

/// The text of `clap`. It contains arguments as they are, so if one of them must not be shown so, it is rendered again.
fn told(alloc: Global, words: &[&str], error: &Error) -> Result<String, AllocError> {
    if !words.iter().any(|word| word.contains(is_escaped)) {
        return format!(in alloc; "{error}");
    }
    let mut shown = Vec::new(alloc);
    for word in words {
        shown.push(format!(in alloc; "{}", OneLine(word))?)?;
    }
    match command(alloc)?.try_get_matches_from(shown.as_slice()) {
        Err(error) => format!(in alloc; "{error}"),
        Ok(_) => format!(in alloc; "{}\n", error.kind()),
    }
}

/// What to do, if the kind of the mistake shows it.
fn push_hint(text: &mut String, words: &[&str], kind: ErrorKind) -> Result<(), AllocError> {
    match kind {
        ErrorKind::InvalidSubcommand => push_hint_of_file(text, words),
        ErrorKind::ValueValidation => push_hint_of_numbers(text, words),
        ErrorKind::InvalidValue | ErrorKind::UnknownArgument if has_negative(words) => {
            push_hint_of_numbers(text, words)
        }
        _ => Ok(()),
    }
}

/// How to mark a file, if the first argument looks like the name of one.
fn push_hint_of_file(text: &mut String, words: &[&str]) -> Result<(), AllocError> {
    match words.first() {
        Some(word) if word.contains(is_of_names) => {
            let name = OneLine(word);
            write!(text, "\nTo mark a file: lbk mark {name}\n")
        }
        _ => Ok(()),
    }
}

fn push_hint_of_numbers(text: &mut String, words: &[&str]) -> Result<(), AllocError> {
    match words.first() {
        Some(name) => text.push_str(numbers_of(name)),
        None => text.push_str(NUMBERS),
    }
}

/// The numbers that the options of a subcommand accept.
pub(crate) fn numbers_of(name: &str) -> &'static str {
    match name {
        "mark" => NUMBERS_OF_MARK,
        "chunk" => NUMBERS_OF_CHUNKS,
        _ => NUMBERS,
    }
}

/// Whether a character occurs in names of files, but in no subcommand.
fn is_of_names(scalar: char) -> bool {
    scalar == '.' || scalar == '/'
}

/// Whether an argument is a hyphen followed by a digit.
fn has_negative(words: &[&str]) -> bool {
    words
        .iter()
        .any(|word| matches!(word.as_bytes(), [b'-', b'0'..=b'9', ..]))
}
