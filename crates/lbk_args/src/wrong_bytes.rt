//! What is wrong with the numbers of bytes in a task.

ghost use Rattle.std.specs.Prelude.{◌≡◌, is_some, not};
ghost use Rattle.lbk_args.specs.Accepted.{are_bytes, are_sizes, is_limit};

use super::numbers::without_unit;
use super::one_line::OneLine;
use super::order::{Engine, Sizes};
use super::parsing::text;
use clap::ArgMatches;
use lbk_feed::LIMIT_MAX;
use std::fmt;

/// A number of bytes that is out of range, or two that contradict each other.
#[derive(Clone, Copy)]
pub(crate) enum WrongBytes<'a> {
    /// The value of this option is no number in its range, which begins at `least`.
    Value {
        option: &'static str,
        value: &'a str,
        least: u32,
    },
    LeastPastMost,
    OverlapPastHalf,
}

impl<'a> fmt::Display for WrongBytes<'a> {
    fn fmt<W: fmt::Write>(&self, f: &mut fmt::Formatter<W>) -> fmt::Result {
        match *self {
            WrongBytes::Value {
                option,
                value,
                least,
            } => write_value(f, option, value, least),
            WrongBytes::LeastPastMost => {
                f.write_str("--least <NUMBER> is greater than --most <NUMBER>")
            }
            WrongBytes::OverlapPastHalf => {
                f.write_str("--overlap <NUMBER> is more than half of --most <NUMBER>")
            }
        }
    }
}

/// Says what is wrong with a value, as `clap` does.
fn write_value<W: fmt::Write>(
    f: &mut fmt::Formatter<W>,
    option: &str,
    value: &str,
    least: u32,
) -> fmt::Result {
    let shown = OneLine(value);
    write!(f, "invalid value '{shown}' for '--{option} <NUMBER>': ")?;
    match without_unit(value).parse::<u64>() {
        Ok(_) => write!(f, "{shown} is not in {least}..={LIMIT_MAX}"),
        Err(error) => write!(f, "{error}"),
    }
}

/// What is wrong with the numbers of bytes of an engine, if anything. `show` and `segment` have theirs from `clap`.
pub(crate) fn wrong_bytes<'a>(given: &ArgMatches<'a>, engine: &Engine) -> Option<WrongBytes<'a>>
    ensures { is_some result ≡ not (are_bytes engine.now) }
{
    match engine {
        Engine::Mark { limit } => wrong_limit(given, "limit", *limit),
        Engine::Chunk { limit, sizes, .. } => match wrong_limit(given, "limit", *limit) {
            Some(wrong) => Some(wrong),
            None => wrong_sizes(given, sizes),
        },
        Engine::Show { .. } | Engine::Segment { .. } | Engine::Replay { .. } => None,
    }
}

/// What is wrong with the sizes of chunks, if anything.
fn wrong_sizes<'a>(given: &ArgMatches<'a>, sizes: &Sizes) -> Option<WrongBytes<'a>>
    ensures { is_some result ≡ not (are_sizes sizes.now) }
{
    if let Some(wrong) = wrong_limit(given, "most", sizes.most) {
        return Some(wrong);
    }
    if sizes.least > sizes.most {
        let contradicts = WrongBytes::LeastPastMost;
        return Some(value_or(given, "least", sizes.least, contradicts));
    }
    if sizes.overlap > sizes.most / 2 {
        let contradicts = WrongBytes::OverlapPastHalf;
        return Some(value_or(given, "overlap", sizes.overlap, contradicts));
    }
    None
}

/// What is wrong with the most bytes of a paragraph or of a chunk, if anything.
fn wrong_limit<'a>(
    given: &ArgMatches<'a>,
    option: &'static str,
    limit: u32,
) -> Option<WrongBytes<'a>>
    ensures { is_some result ≡ not (is_limit limit) }
{
    if (1..=LIMIT_MAX).contains(&limit) {
        None
    } else {
        Some(wrong_value(given, option, 1))
    }
}

/// The value of an option if it is out of range by itself, or else the contradiction.
fn value_or<'a>(
    given: &ArgMatches<'a>,
    option: &'static str,
    number: u32,
    contradicts: WrongBytes<'a>,
) -> WrongBytes<'a> {
    if number > LIMIT_MAX {
        wrong_value(given, option, 0)
    } else {
        contradicts
    }
}

fn wrong_value<'a>(given: &ArgMatches<'a>, option: &'static str, least: u32) -> WrongBytes<'a> {
    let value = text(given, option).unwrap_or("");
    WrongBytes::Value {
        option,
        value,
        least,
    }
}
