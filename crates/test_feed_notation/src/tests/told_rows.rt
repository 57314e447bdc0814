//! Texts, and the passages, segments and pieces of a segmenter: for each passage `P`, its start, its length and the
//! rule at its end; `S`, start, end, kind and rule of a segment; `W`, start and end of a word; `p`, those of any other
//! piece.

/// In both profiles.
pub static BOTH: [(&str, &str); 11] = [
    ("", ""),
    (
        "ab cd",
        "P 0 5 3 S 0 3 May 18 S 3 5 Must 3 W 0 2 p 2 3 W 3 5\n",
    ),
    (
        "a\r\nb",
        "P 0 3 5 S 0 3 Must 5 W 0 1 p 1 3\nP 3 1 3 S 0 1 Must 3 W 0 1\n",
    ),
    (
        "\n\n",
        "P 0 1 5 S 0 1 Must 5 p 0 1\nP 1 1 3 S 0 1 Must 3 p 0 1\n",
    ),
    (
        "abc\rb",
        "P 0 4 5 S 0 4 Must 5 W 0 3 p 3 4\nP 4 1 3 S 0 1 Must 3 W 0 1\n",
    ),
    ("can't", "P 0 5 3 S 0 5 Must 3 W 0 5\n"),
    ("1,2", "P 0 3 3 S 0 3 Must 3 W 0 3\n"),
    ("$ !", "P 0 3 3 S 0 3 Must 3 p 0 1 p 1 2 p 2 3\n"),
    (
        "e\u{301} b",
        "P 0 5 3 S 0 4 May 18 S 4 5 Must 3 W 0 3 p 3 4 W 4 5\n",
    ),
    (
        "a \u{2019}\u{301}b",
        "P 0 8 3 S 0 2 May 18 S 2 8 Must 3 W 0 1 p 1 2 p 2 7 W 7 8\n",
    ),
    ("a \u{2019}a \u{2019}b\nc", TWO_QUOTATIONS),
];

const TWO_QUOTATIONS: &str =
    "P 0 12 5 S 0 2 May 18 S 2 7 May 18 S 7 12 Must 5 W 0 1 p 1 2 p 2 5 W 5 6 p 6 7 p 7 10 W 10 11 p 11 12\n\
     P 12 1 3 S 0 1 Must 3 W 0 1\n";

/// In the first profile.
pub static FIRST: [(&str, &str); 3] = [
    (
        "a \u{2019}\u{301},",
        "P 0 8 3 S 0 2 May 18 S 2 8 Must 3 W 0 1 p 1 2 p 2 7 p 7 8\n",
    ),
    (
        "a \u{2019}",
        "P 0 5 3 S 0 2 May 18 S 2 5 Must 3 W 0 1 p 1 2 p 2 5\n",
    ),
    (
        "\u{2018} a",
        "P 0 5 3 S 0 4 May 18 S 4 5 Must 3 p 0 3 p 3 4 W 4 5\n",
    ),
];

/// In the second profile.
pub static SECOND: [(&str, &str); 6] = [
    (
        "a \u{2019}\u{301},",
        "P 0 8 3 S 0 8 Must 3 W 0 1 p 1 2 p 2 7 p 7 8\n",
    ),
    ("a \u{2019}", "P 0 5 3 S 0 5 Must 3 W 0 1 p 1 2 p 2 5\n"),
    ("\u{2018} a", "P 0 5 3 S 0 5 Must 3 p 0 3 p 3 4 W 4 5\n"),
    (
        "a\u{2019}\u{200D}\u{301},",
        "P 0 10 3 S 0 10 Must 3 W 0 1 p 1 9 p 9 10\n",
    ),
    (
        "a\u{2019}\u{2019}a",
        "P 0 8 3 S 0 8 Must 3 W 0 1 p 1 4 p 4 7 W 7 8\n",
    ),
    (
        "a \u{2019}\nb",
        "P 0 6 5 S 0 6 Must 5 W 0 1 p 1 2 p 2 5 p 5 6\nP 6 1 3 S 0 1 Must 3 W 0 1\n",
    ),
];
