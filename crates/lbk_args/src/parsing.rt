//! Parses arguments into a task.

ghost use Rattle.std.specs.Prelude.{◌≡◌, [], ◌∷◌, ◌/◌, Some, IfOk, IfErr, MatchOption, MatchResult, OnOk, codes};
ghost use Rattle.std.specs.Prelude.{map, option_map};
ghost use Rattle.clap.specs.Words.{first_of, found_of, kind_of, one_of, rows_of};
ghost use Rattle.clap.specs.declared.error.kind.ErrorKind.{ErrorKind};
ghost use Rattle.lbk_args.specs.Accepted.{AreAccepted, faults_of, is_range, task_fault};
ghost use Rattle.lbk_args.specs.Task.{Task, byte_limit_in, engine_in, flag_in, limit_in, part_in, profile_in, sign_in};
ghost use Rattle.lbk_args.specs.Task.{sizes_by, sizes_in, task_by, task_in, task_of, texts_in};
ghost use Rattle.lbk_args.specs.Numbers.{number_or};
ghost use Rattle.lbk_args.specs.PlainWords.{IsPlainFor};
ghost use Rattle.lbk_args.specs.Sign.{is_sign};
ghost use Rattle.lbk_args.specs.Refusal.{IsMistake, IsRefusalBy};

use super::numbers::bytes_or;
use super::options::{command, usage_of};
use super::order::{Engine, Order, Part, Sizes, WordsFault};
use super::property_values::{cause, values};
use super::sign::{DEFAULT_SIGN, is_sign};
use super::usage::{numbers_of, usage_text};
use super::wrong_bytes::{WrongBytes, wrong_bytes};
use clap::error::ErrorKind;
use clap::{ArgMatches, Error};
use lbk_values::Profile;
use std::alloc::{AllocError, Global};
use std::fmt;

/// The default of the most bytes of a paragraph.
pub const DEFAULT_LIMIT: u32 = 65_536;

/// The message for a range that ends before it begins.
const TURNED_ROUND: &str = "--from <BYTE> is greater than --to <BYTE>";

/// The message for an invalid sign.
const NO_SIGN: &str = "--sign <TEXT> must be 1 to 8 bytes of UTF-8 without a line end";

/// Reads the arguments after the program's name.
///
/// Returns `Help` for a request for help or for the version, and `Usage` for arguments that are not a command line of
/// the program; both have a text to print. Returns `Memory` if an allocation fails.
pub fn parse<'a>(alloc: Global, words: &'a [&'a str]) -> Result<Order<'a>, WordsFault>
    ensures accepted { IfOk result (λ order. AreAccepted (map (λ w. w.now) words.entry.now)) }
    ensures task { IfOk result (λ order. task_by (map (λ w. w.now) words.entry.now) ≡ Some (task_of order)) }
    ensures refused { IfErr result (IsRefusalBy (faults_of (map (λ w. w.now) words.entry.now))) }
    ensures plain { (task : Task) → IsPlainFor task (map (λ w. w.now) words.entry.now)
        → MatchResult result (λ order. task_of order ≡ task) (λ fault. fault ≡ WordsFault.Memory) }
{
    let Ok(command) = command(alloc) else {
        return Err(WordsFault::Memory);
    };
    match command.try_get_matches_from(words) {
        Ok(matches) => {
            let (name, given) = matches.subcommand().unwrap();
            let Ok(texts) = texts(alloc, given) else {
                return Err(WordsFault::Memory);
            };
            accepted(alloc, name, given, order(name, given, texts))
        }
        Err(error) => Err(refusal(alloc, words, &error)),
    }
}

/// A task of these options, if its property values are named, its range does not end before it begins, its sign is
/// valid, and so are its numbers of bytes.
fn accepted<'a>(
    alloc: Global,
    name: &str,
    given: &ArgMatches<'a>,
    order: Option<Order<'a>>,
) -> Result<Order<'a>, WordsFault>
    ensures order { IfOk result (λ made. order.entry ≡ Some made) }
    ensures clean { OnOk result (task_fault (option_map task_of order.entry) ≡ []) }
    ensures refused { IfErr result (IsRefusalBy (task_fault (option_map task_of order.entry))) }
{
    let Some(order) = order else {
        return Err(mistake(alloc, name, cause(given)));
    };
    if !is_range(order.part) {
        return Err(mistake(alloc, name, TURNED_ROUND));
    }
    if !is_sign(order.sign) {
        return Err(mistake(alloc, name, NO_SIGN));
    }
    if let Some(wrong) = wrong_bytes(given, &order.engine) {
        return Err(refused_bytes(alloc, name, wrong));
    }
    Ok(order)
}

/// Whether a range does not end before it begins.
fn is_range(part: Option<Part>) -> bool
    ensures { result ≡ is_range part }
{
    match part {
        None => true,
        Some(part) => part.from <= part.to,
    }
}

/// The task of a subcommand for these texts, from its options; none if they name no property values, or in two ways.
fn order<'a>(name: &str, given: &ArgMatches<'a>, texts: Vec<&'a str>) -> Option<Order<'a>>
    requires { map (λ name. name.now) texts.items ≡ texts_in (rows_of (found_of given.now)) }
    ensures { option_map task_of result ≡ task_in (name.now, rows_of (found_of given.now)) }
{
    let values = values(name, given)?;
    Some(Order {
        engine: engine(name, given),
        values,
        profile: profile(given),
        part: part(given),
        sign: sign(given),
        names: flag(given, "names"),
        texts,
    })
}

fn engine(name: &str, given: &ArgMatches<'_>) -> Engine
    ensures { result ≡ engine_in name.now (rows_of (found_of given.now)) }
{
    match name {
        "mark" => Engine::Mark {
            limit: byte_limit(given),
        },
        "show" => Engine::Show {
            limit: limit(given),
        },
        "segment" => Engine::Segment {
            limit: limit(given),
        },
        "chunk" => Engine::Chunk {
            limit: byte_limit(given),
            sizes: sizes(given),
            texts: flag(given, "texts"),
        },
        _ => Engine::Replay {
            kinds: flag(given, "kinds"),
        },
    }
}

/// The sizes of chunks; the default of `--least` is half of `--most`.
fn sizes(given: &ArgMatches<'_>) -> Sizes
    ensures { result ≡ sizes_in (rows_of (found_of given.now)) }
{
    let most = bytes_or(text(given, "most"), 1);
    Sizes {
        most,
        words: number(given, "words", 0),
        least: bytes_or(text(given, "least"), most / 2),
        overlap: bytes_or(text(given, "overlap"), 0),
    }
}

/// The first value of an option.
pub(crate) fn text<'a>(given: &ArgMatches<'a>, id: &str) -> Option<&'a str>
    ensures { option_map (λ s. s.now) result ≡ first_of id.now (rows_of (found_of given.now)) }
{
    given.get_str(id)
}

/// The number of an option, or `other` if it has none.
fn number(given: &ArgMatches<'_>, id: &str, other: u32) -> u32
    ensures { result ≡ number_or other (one_of id.now (rows_of (found_of given.now))) }
{
    given.get_one(id).unwrap_or(other)
}

/// The limit of `show` and `segment`.
fn limit(given: &ArgMatches<'_>) -> u32
    ensures { result ≡ limit_in (rows_of (found_of given.now)) }
{
    number(given, "limit", DEFAULT_LIMIT)
}

/// The limit of `mark` and `chunk`.
fn byte_limit(given: &ArgMatches<'_>) -> u32
    ensures { result ≡ byte_limit_in (rows_of (found_of given.now)) }
{
    bytes_or(text(given, "limit"), DEFAULT_LIMIT)
}

/// Whether the flag with this name is given.
fn flag(given: &ArgMatches<'_>, id: &str) -> bool
    ensures { result ≡ flag_in id.now (rows_of (found_of given.now)) }
{
    given.get_one::<bool>(id).unwrap_or(false)
}

fn profile(given: &ArgMatches<'_>) -> Profile
    ensures { result ≡ profile_in (rows_of (found_of given.now)) }
{
    if number(given, "profile", 1) == 2 {
        Profile::Second
    } else {
        Profile::First
    }
}

/// The range of passages, unless it is all of them.
fn part(given: &ArgMatches<'_>) -> Option<Part>
    ensures { result ≡ part_in (rows_of (found_of given.now)) }
{
    let from = number(given, "from", 0);
    let to = number(given, "to", u32::MAX);
    if from == 0 && to == u32::MAX {
        None
    } else {
        Some(Part { from, to })
    }
}

/// The sign of `mark`.
fn sign<'a>(given: &ArgMatches<'a>) -> &'a str
    ensures { result.now ≡ sign_in (rows_of (found_of given.now)) }
{
    text(given, "sign").unwrap_or(DEFAULT_SIGN)
}

/// The names of the texts.
fn texts<'a>(alloc: Global, given: &ArgMatches<'a>) -> Result<Vec<&'a str>, AllocError>
    ensures { IfOk result (λ texts. map (λ name. name.now) texts.items ≡ texts_in (rows_of (found_of given.now))) }
{
    match given.get_strs("text") {
        Some(names) => Vec::from_slice(alloc, names),
        None => Ok(Vec::new(alloc)),
    }
}

/// What the program writes if `clap` refuses the arguments.
fn refusal(alloc: Global, words: &[&str], error: &Error) -> WordsFault
    ensures { IsRefusalBy (kind_of error.now ∷ []) result }
{
    if error.kind() == ErrorKind::OutOfMemory {
        return WordsFault::Memory;
    }
    let is_help = !error.use_stderr();
    let text = if is_help {
        format!(in alloc; "{error}")
    } else {
        usage_text(alloc, words, error)
    };
    match text {
        Ok(text) if is_help => WordsFault::Help { text },
        Ok(text) => WordsFault::Usage { text },
        Err(_) => WordsFault::Memory,
    }
}

/// What the program writes for arguments that `clap` accepts, but that are wrong in this way.
fn mistake<C: fmt::Display + Drop>(alloc: Global, name: &str, cause: C) -> WordsFault
    ensures { (kind : ErrorKind) → IsMistake kind → IsRefusalBy (kind ∷ []) result }
{
    let usage = usage_of(name);
    usage_fault(format!(in alloc;
        "lbk: {cause}\n\nUsage: {usage}\n\nFor more information, try '--help'.\n"
    ))
}

/// What the program writes for numbers of bytes that are out of range, or contradict each other.
fn refused_bytes(alloc: Global, name: &str, wrong: WrongBytes<'_>) -> WordsFault
    ensures { (kind : ErrorKind) → IsMistake kind → IsRefusalBy (kind ∷ []) result }
{
    let WrongBytes::Value { .. } = wrong else {
        return mistake(alloc, name, wrong);
    };
    let numbers = numbers_of(name);
    usage_fault(format!(in alloc; "lbk: {wrong}\n\nFor more information, try '--help'.\n{numbers}"))
}

/// The result for a mistake with this message.
fn usage_fault(told: Result<String, AllocError>) -> WordsFault
    ensures { (kind : ErrorKind) → IsMistake kind → IsRefusalBy (kind ∷ []) result }
{
    match told {
        Ok(text) => WordsFault::Usage { text },
        Err(_) => WordsFault::Memory,
    }
}
