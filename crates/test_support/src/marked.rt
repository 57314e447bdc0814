//! What `mark` writes for texts with the sample files.

/// The output for a text in both profiles.
pub static BOTH: [(&str, &str); 17] = [
    ("ab cd", "ab ÷cd\n"),
    ("ab cd\n", "ab ÷cd\n"),
    ("", ""),
    ("a", "a\n"),
    ("a\r\nb", "a\r\nb\n"),
    ("a\r\n", "a\r\n"),
    ("a\r", "a\r"),
    ("a\rb", "a\rb\n"),
    ("\n\n", "\n\n"),
    ("\u{C}a", "\u{C}a\n"),
    ("  a", "  ÷a\n"),
    ("a  ", "a  \n"),
    ("a b c\nd e", "a ÷b ÷c\nd ÷e\n"),
    ("a ÷ b\n", "a ÷÷ ÷b\n"),
    ("( \u{301}a", "( \u{301}a\n"),
    ("\u{1F466}\u{10FFFF}", "\u{1F466}÷\u{10FFFF}\n"),
    ("a \u{2019}\u{301}b", "a ÷\u{2019}\u{301}b\n"),
];

/// In the first profile.
pub static FIRST: [(&str, &str); 2] = [
    ("a \u{2019}\u{301},", "a ÷\u{2019}\u{301},\n"),
    ("\u{2018} a", "\u{2018} ÷a\n"),
];

/// In the second profile.
pub static SECOND: [(&str, &str); 2] = [
    ("a \u{2019}\u{301},", "a \u{2019}\u{301},\n"),
    ("\u{2018} a", "\u{2018} a\n"),
];
