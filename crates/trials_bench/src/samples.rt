//! The texts and test files that calls are tried on, by name.

use crate::inputs::Text;
use lbk_notation::Form;
use test_support::engines::LIMIT;

/// A text or a test file, and the limit of a paragraph and the form of lines for the calls that take one.
pub type Sample = (Text, u32, Form);

pub const TWO_WORDS: Text = Text::Of("ab cd");

/// A closing quotation mark; the second profile holds its position.
pub const QUOTED: Text = Text::Of("a \u{2019}\u{301},");

/// Paragraphs of several lines, scripts and widths.
pub const LONG: Text = Text::Of(
    "The quick (brown) fox can\u{2019}t jump 32.3 feet, right?\n\u{4E00}\u{3041} \u{AC01}\u{1100}\u{1161} $(12)%\r\n\
     \u{5D0}-a \u{201C}b\u{201D} \u{2018}c\u{2019} \u{1F1E6}\u{1F1E6}\u{1F1E6} \u{1F466}\u{200D}\u{1F466} \
     and then a line that goes on and on without an end of its own, to the end of the text",
);

/// One passage of 70,000 bytes.
pub const HUGE: Text = Text::Repeated("ab cd. ", 10_000);

pub const TEST_LINES: Text = Text::Of("× 0061 × 0062 ÷\n× 0061 ÷ 0062 ÷\n× D800 ÷\n# done\n");

pub const KINDS_LINE: Text = Text::Of("× 0061 × 0062 × 0020 ÷ 0063 × 0064 !");

pub const KINDS_LINE_DIFFERS: Text = Text::Of("× 0061 × 0062 × 0020 ÷ 0063 × 0064 ÷\n");

/// Two hundred lines of more than 40 bytes each.
const MANY_LINES: Text = Text::Repeated(
    "× 0061 × 0062 × 0020 ÷ 0063 × 0064 × 0020 ÷ 0065 × 1F466 ÷\t# x\n",
    200,
);

static SAMPLES: [(&str, Sample); 29] = [
    ("empty", (Text::Of(""), LIMIT, Form::Kinds)),
    ("two-words", (TWO_WORDS, LIMIT, Form::Kinds)),
    ("return", (Text::Of("a\r\nb"), LIMIT, Form::Kinds)),
    ("quoted", (QUOTED, LIMIT, Form::Kinds)),
    ("long", (LONG, LIMIT, Form::Plain)),
    // One passage of 2,000 segments and 4,000 pieces, one of more bytes than the default limit, and 300 passages.
    ("pairs", (Text::Repeated("a ", 2000), LIMIT, Form::Kinds)),
    ("huge", (HUGE, 100_000, Form::Kinds)),
    (
        "paragraphs",
        (Text::Repeated("ab cd\u{2019} e\n", 300), LIMIT, Form::Kinds),
    ),
    ("four", (Text::Of("ab\r\n"), 4, Form::Kinds)),
    ("five", (Text::Of("abc\r\n"), 4, Form::Kinds)),
    ("two-of-four", (Text::Of("abc\rb"), 4, Form::Kinds)),
    ("wide", (Text::Of("\u{2019}"), 1, Form::Kinds)),
    ("wide-behind", (Text::Of("\n\u{2019}"), 1, Form::Kinds)),
    ("too-long", (Text::Of("ab\nabcde"), 4, Form::Kinds)),
    (
        "too-long-first",
        (Text::Bytes(b"abcde\xFF"), 4, Form::Kinds),
    ),
    (
        "ill-formed-first",
        (Text::Bytes(b"abcd\xFF"), 4, Form::Kinds),
    ),
    ("ill-formed", (Text::Bytes(b"a\nb\xFF"), LIMIT, Form::Kinds)),
    (
        "ill-formed-at-end",
        (Text::Bytes(b"a\n\xFF"), LIMIT, Form::Kinds),
    ),
    ("cut", (Text::Bytes(b"a\xE2\x82"), LIMIT, Form::Kinds)),
    ("no-limit", (Text::Of("a\r\nb"), 0, Form::Kinds)),
    ("four-lines", (TEST_LINES, LIMIT, Form::Plain)),
    ("line", (KINDS_LINE, LIMIT, Form::Kinds)),
    ("line-differs", (KINDS_LINE_DIFFERS, LIMIT, Form::Kinds)),
    (
        "quoted-line",
        (
            Text::Of("× 0061 × 0020 × 2019 ÷ 0301 × 002C ÷"),
            LIMIT,
            Form::Plain,
        ),
    ),
    ("many-lines", (MANY_LINES, LIMIT, Form::Plain)),
    // A line of a thousand scalars without its last mark.
    (
        "long-bad-line",
        (Text::Repeated("× 0061 ", 1000), LIMIT, Form::Plain),
    ),
    ("bad-line", (Text::Of("× 0023"), LIMIT, Form::Kinds)),
    ("comment", (Text::Of("#"), LIMIT, Form::Kinds)),
    (
        "passage-line",
        (
            Text::Of("× 0061 × 000D × 000A !\t# 2 6 5 3"),
            LIMIT,
            Form::Kinds,
        ),
    ),
];

pub fn sample_of(name: &str) -> Option<Sample> {
    for (sample_name, sample) in &SAMPLES {
        if *sample_name == name {
            return Some(*sample);
        }
    }
    None
}
