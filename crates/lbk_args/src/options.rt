//! The options and subcommands of the program, with their help.

ghost use Rattle.std.specs.Prelude.{codes};
ghost use Rattle.clap.specs.Words.{App, Rule, with_rule, with_subcommand};
ghost use Rattle.lbk_args.specs.Made.{IsMade, IsOption};
ghost use Rattle.lbk_args.specs.Command.{byte_rule, long_rule, value_rule, number_rule, limit_rule, byte_limit_rule};
ghost use Rattle.lbk_args.specs.Command.{flag_rule, texts_flag_rule, texts_rule, words_rule};
ghost use Rattle.lbk_args.specs.Command.{files_app, shared_app};
ghost use Rattle.lbk_args.specs.Command.{ranged_app, limited_app, mark_app, sized_app, chunk_app};
ghost use Rattle.lbk_args.specs.Command.{replay_app, bare_app, lbk_app};

use clap::builder::ValueParser;
use clap::{Arg, ArgAction, Command};
use lbk_feed::LIMIT_MAX;
use std::alloc::{AllocError, Global};

const VERSION: &str = "0.2.0 (breaks by UAX #14 of Unicode 15.0, words by UAX #29 of Unicode 18.0)";

const ABOUT: &str = "\
Finds where a text may break and where it must, and says which rule of UAX #14
decided. A text is a file, or standard input. Without arguments it runs
`show` on standard input, with small sample data.";

const EXAMPLES: &str = "\
The property values are those of Unicode 15.0, built in: mark and chunk use them
without an option, the other subcommands with --unicode 15.0. To read them from
files, pass --ucd and the folder of the Unicode Character Database 15.0, or the
options of all four files.

Examples:
  lbk mark text.txt                               the text with its breaks
  lbk chunk --most 500 text.txt                   its chunks for search
  lbk show --unicode 15.0 < text.txt              a line for each paragraph
  lbk segment --unicode 15.0 text.txt             the breaks as byte offsets
  lbk replay --unicode 15.0 LineBreakTest.txt     the lines that differ

Exit status: 0 done, 1 a file or text refused, or I/O failed, 2 invalid
arguments, 3 replay found lines that differ or that it cannot read.";

const MARK_USAGE: &str = "lbk mark [OPTIONS] [FILE]...";

const SHOW_USAGE: &str = "lbk show --unicode 15.0 [OPTIONS] [FILE]...";

const SEGMENT_USAGE: &str = "lbk segment --unicode 15.0 [OPTIONS] [FILE]...";

const CHUNK_USAGE: &str = "lbk chunk --most <NUMBER> [OPTIONS] [FILE]...";

const REPLAY_USAGE: &str = "lbk replay --unicode 15.0 [OPTIONS] [FILE]...";

const MARK_ABOUT: &str = "Writes the text with ÷ at each position where a line may end";

const SHOW_ABOUT: &str = "Writes a line for each paragraph, with the rule of each position";

const SEGMENT_ABOUT: &str = "Writes the byte offsets of each paragraph, segment and word";

const CHUNK_ABOUT: &str = "Cuts texts into chunks for search, at breaks outside words";

const REPLAY_ABOUT: &str = "Compares break tests with the rules, and counts what differs";

const MARK_AFTER: &str = "\
The text is otherwise unchanged: where a line must end, it has its own line end.
A text that ends without a line end gets one. K and M after the number of bytes
mean 1024 and 1048576: --limit 64K. Example:
  $ printf 'ab cd' | lbk mark
  ab ÷cd";

const SHOW_AFTER: &str = "\
A mark is before and after each character: × no break, ÷ break allowed,
! break required. Example:
  $ printf 'ab cd' | lbk show --unicode 15.0
  × 0061 × 0062 × 0020 ÷ 0063 × 0064 !\t# 2 28 7 18 28 3";

const SEGMENT_AFTER: &str = "\
`P start end` is a paragraph, `S start end kind rule` a segment of it up to an
allowed break (kind May) or a required one (kind Must), and `W start end` a
word. Offsets count bytes of the whole text. Adjacent ranges, such as
`--to 1000` and `--from 1000`, together write what the whole text writes.
Example:
  $ printf 'ab cd' | lbk segment --unicode 15.0
  P 0 5
  S 0 3 May 18
  S 3 5 Must 3
  W 0 2
  W 3 5";

const CHUNK_AFTER: &str = "\
`C start end words kind rule` is a chunk, with the kind and the rule of the
break at its end. It is as long as --most and --words allow, or ends early at
a required break, once it has --least new bytes. Text without a break within
the limits becomes one longer chunk. Offsets count bytes of the whole text;
--from and --to still read all of it. With --text each chunk is a JSON object on
a line; with --names as well, each object names its file. K and M after a number
of bytes mean 1024 and 1048576: --most 2K. Examples:
  $ printf 'ab cd' | lbk chunk --most 4
  C 0 3 1 May 18
  C 3 5 1 Must 3
  $ printf 'ab cd' | lbk chunk --most 4 --text
  {\"start\":0,\"end\":3,\"words\":1,\"text\":\"ab \"}
  {\"start\":3,\"end\":5,\"words\":1,\"text\":\"cd\"}";

const REPLAY_AFTER: &str = "\
`D line position file rules rule` is the first position of a line that differs,
with the file's mark, the rules' mark, and the rule. `R line byte` is a line
with a syntax error at that byte, `R line long` one that is too long.
`T lines agreed differed refused` is the last line. Example:
  $ printf '× 0061 ÷ 0062 ÷\\n' | lbk replay --unicode 15.0
  D 1 1 ÷ × 28
  T 1 0 1 0";

/// The name of a subcommand.
pub(crate) fn usage_of(name: &str) -> &'static str {
    match name {
        "mark" => MARK_USAGE,
        "show" => SHOW_USAGE,
        "segment" => SEGMENT_USAGE,
        "chunk" => CHUNK_USAGE,
        _ => REPLAY_USAGE,
    }
}

/// An option with this name, which also follows `--`.
fn long_option<'a>(alloc: Global, name: &'a str) -> Arg<'a>
    ensures { IsOption (long_rule name.entry.now) result }
{
    Arg::new(alloc, name).long(name)
}

/// A flag with this name.
fn flag_option<'a>(alloc: Global, name: &'a str, help: &'a str) -> Arg<'a>
    ensures { IsOption (flag_rule name.entry.now) result }
{
    long_option(alloc, name)
        .action(ArgAction::SetTrue)
        .help(help)
}

/// An option with this name and a value.
fn value_option<'a>(alloc: Global, name: &'a str, value: &'a str, help: &'a str) -> Arg<'a>
    ensures { IsOption (value_rule name.entry.now) result }
{
    long_option(alloc, name)
        .action(ArgAction::Set)
        .value_name(value)
        .help(help)
}

/// An option with a number from 1 to `most`.
fn number_option<'a>(
    alloc: Global,
    name: &'a str,
    most: u64,
    default: &'a str,
    help: &'a str,
) -> Arg<'a>
    ensures { IsOption (number_rule name.entry.now most default.entry.now) result }
{
    value_option(alloc, name, "NUMBER", help)
        .value_parser(ValueParser::unsigned(1, most))
        .default_value(default)
}

/// `--limit` of `show` and `segment`.
fn limit_option<'a>(alloc: Global) -> Arg<'a>
    ensures { IsOption limit_rule result }
{
    let help = "Bytes of a paragraph, 1 to 16777216";
    number_option(alloc, "limit", u64::from(LIMIT_MAX), "65536", help)
}

/// `--limit` of `mark` and `chunk`, whose number may have a unit.
fn byte_limit_option<'a>(alloc: Global) -> Arg<'a>
    ensures { IsOption byte_limit_rule result }
{
    let help = "Bytes of a paragraph, 1 to 16M";
    value_option(alloc, "limit", "NUMBER", help).default_value("65536")
}

/// An option with a byte offset in a text.
fn byte_option<'a>(alloc: Global, name: &'a str, help: &'a str) -> Arg<'a>
    ensures { IsOption (byte_rule name.entry.now) result }
{
    let option = value_option(alloc, name, "BYTE", help);
    option.value_parser(ValueParser::unsigned(0, u64::from(u32::MAX)))
}

fn words_option<'a>(alloc: Global) -> Arg<'a>
    ensures { IsOption words_rule result }
{
    let help = "Most words, 1 to 16777216 [default: any number]";
    let option = value_option(alloc, "words", "NUMBER", help);
    option.value_parser(ValueParser::unsigned(1, u64::from(LIMIT_MAX)))
}

/// The flag `--text`; its name here differs, because the operands have the name `text`.
fn texts_option<'a>(alloc: Global) -> Arg<'a>
    ensures { IsOption texts_flag_rule result }
{
    Arg::new(alloc, "texts")
        .long("text")
        .action(ArgAction::SetTrue)
        .help("JSON Lines with the text of each chunk")
}

/// The operands: the names of the texts.
fn texts_operand<'a>(alloc: Global) -> Arg<'a>
    ensures { IsOption texts_rule result }
{
    Arg::new(alloc, "text")
        .action(ArgAction::Append)
        .value_name("FILE")
        .help("A text; `-` or no file: standard input")
}

/// A command line, or out of memory.
type Made<'a> = Result<Command<'a>, AllocError>;

/// The command with one more option.
///
/// It takes the result so far, even an error: such a function, which never returns early, is proved much faster than
/// one with a `?` at each step.
fn with_option<'a>(command: Made<'a>, option: Arg<'a>) -> Made<'a>
    ensures { (app : App) → (rule : Rule) → IsOption rule option.entry → IsMade app command.entry
        → IsMade (with_rule app rule) result }
{
    command?.arg(option)
}

/// The command with one more subcommand.
fn with_command<'a>(command: Made<'a>, added: Made<'a>) -> Made<'a>
    ensures { (app : App) → (sub : App) → IsMade app command.entry → IsMade sub added.entry
        → IsMade (with_subcommand app sub.top) result }
{
    command?.subcommand(added?)
}

/// The command with its help texts.
fn described<'a>(command: Made<'a>, usage: &'a str, about: &'a str, after: &'a str) -> Made<'a>
    ensures { (app : App) → IsMade app command.entry → IsMade app result }
{
    Ok(
        command?
            .override_usage(usage)
            .about(about)
            .after_help(after),
    )
}

/// A subcommand with the options for the property values.
fn with_files<'a>(alloc: Global, name: &'a str) -> Made<'a>
    ensures { IsMade (files_app name.entry.now) result }
{
    let version = "15.0, the built-in property values";
    let version = value_option(alloc, "unicode", "VERSION", version);
    let command = with_option(Ok(Command::new(alloc, name)), version);
    let folder = "The folder with the four files below";
    let command = with_option(command, value_option(alloc, "ucd", "FOLDER", folder));
    let classes = "LineBreak.txt, the classes of characters";
    let command = with_option(command, value_option(alloc, "line-break", "FILE", classes));
    let widths = "EastAsianWidth.txt, the widths";
    let command = with_option(command, value_option(alloc, "east-asian", "FILE", widths));
    let categories = "DerivedGeneralCategory.txt, the categories";
    let command = with_option(command, value_option(alloc, "category", "FILE", categories));
    let pictographs = "emoji-data.txt, the pictographs";
    with_option(command, value_option(alloc, "emoji", "FILE", pictographs))
}

/// A subcommand with `--profile`, `--names` and the texts after its other options.
fn with_shared<'a>(alloc: Global, command: Made<'a>) -> Made<'a>
    ensures { (app : App) → IsMade app command.entry → IsMade (shared_app app) result }
{
    let profile = "2 for rules 15a, 15b (quotation marks)";
    let command = with_option(command, number_option(alloc, "profile", 2, "1", profile));
    let names = "A line ==> FILE <== before the output of each text";
    let command = with_option(command, flag_option(alloc, "names", names));
    with_option(command, texts_operand(alloc))
}

/// A subcommand over texts, with `--limit`, `--from` and `--to` after its other options.
fn ranged<'a>(
    alloc: Global,
    command: Made<'a>,
    limit: Arg<'a>,
    from: &'a str,
    to: &'a str,
) -> Made<'a>
    ensures { (app : App) → (rule : Rule) → IsOption rule limit.entry → IsMade app command.entry
        → IsMade (ranged_app rule app) result }
{
    let command = with_option(command, limit);
    let command = with_option(command, byte_option(alloc, "from", from));
    with_shared(alloc, with_option(command, byte_option(alloc, "to", to)))
}

/// `mark`, `show` or `segment`.
fn limited<'a>(alloc: Global, name: &'a str, limit: Arg<'a>) -> Made<'a>
    ensures { (rule : Rule) → IsOption rule limit.entry → IsMade (ranged_app rule (files_app name.entry.now)) result }
{
    let from = "Only paragraphs that begin at this byte or after it";
    let to = "Only paragraphs that begin before this byte";
    ranged(alloc, with_files(alloc, name), limit, from, to)
}

fn mark<'a>(alloc: Global) -> Made<'a>
    ensures { IsMade mark_app result }
{
    let sign = "Instead of ÷: 1 to 8 bytes without a line end";
    let sign = value_option(alloc, "sign", "TEXT", sign);
    let command = limited(alloc, "mark", byte_limit_option(alloc));
    let command = with_option(command, sign);
    described(command, MARK_USAGE, MARK_ABOUT, MARK_AFTER)
}

fn show<'a>(alloc: Global) -> Made<'a>
    ensures { IsMade (limited_app (codes "show")) result }
{
    let command = limited(alloc, "show", limit_option(alloc));
    described(command, SHOW_USAGE, SHOW_ABOUT, SHOW_AFTER)
}

fn segment<'a>(alloc: Global) -> Made<'a>
    ensures { IsMade (limited_app (codes "segment")) result }
{
    let command = limited(alloc, "segment", limit_option(alloc));
    described(command, SEGMENT_USAGE, SEGMENT_ABOUT, SEGMENT_AFTER)
}

/// `chunk`, with its sizes and `--text` before its other options.
fn sized<'a>(alloc: Global) -> Made<'a>
    ensures { IsMade sized_app result }
{
    let most = "Largest chunk in bytes, 1 to 16M";
    let most = value_option(alloc, "most", "NUMBER", most).required(true);
    let command = with_option(with_files(alloc, "chunk"), most);
    let command = with_option(command, words_option(alloc));
    let least = "New bytes before an early end [default: half]";
    let command = with_option(command, value_option(alloc, "least", "NUMBER", least));
    let overlap = "Most bytes that the next chunk repeats [default: 0]";
    let command = with_option(command, value_option(alloc, "overlap", "NUMBER", overlap));
    with_option(command, texts_option(alloc))
}

fn chunk<'a>(alloc: Global) -> Made<'a>
    ensures { IsMade chunk_app result }
{
    let from = "Only chunks that begin at this byte or after it";
    let to = "Only chunks that begin before this byte";
    let command = ranged(alloc, sized(alloc), byte_limit_option(alloc), from, to);
    described(command, CHUNK_USAGE, CHUNK_ABOUT, CHUNK_AFTER)
}

fn replay<'a>(alloc: Global) -> Made<'a>
    ensures { IsMade replay_app result }
{
    let kinds = "! is a required break, ÷ allowed; else ÷ is any";
    let kinds = flag_option(alloc, "kinds", kinds);
    let command = with_option(with_files(alloc, "replay"), kinds);
    let command = with_shared(alloc, command);
    described(command, REPLAY_USAGE, REPLAY_ABOUT, REPLAY_AFTER)
}

/// The program without subcommands.
fn bare<'a>(alloc: Global) -> Made<'a>
    ensures { IsMade bare_app result }
{
    Command::new(alloc, "lbk")
        .about(ABOUT)
        .after_help(EXAMPLES)
        .version(VERSION)
        .no_binary_name(true)
        .subcommand_required(true)
        .bin_name("lbk")
}

/// The command line of the program.
pub fn command<'a>(alloc: Global) -> Result<Command<'a>, AllocError>
    ensures { IsMade lbk_app result }
{
    let command = with_command(bare(alloc), mark(alloc));
    let command = with_command(command, show(alloc));
    let command = with_command(command, segment(alloc));
    let command = with_command(command, chunk(alloc));
    with_command(command, replay(alloc))
}
