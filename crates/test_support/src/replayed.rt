//! Test files, and what a replay with the sample files writes; its last line has the counts: how many lines are counted,
//! agree, differ and are refused.

pub const FOUR_LINES: &str = "× 0061 × 0062 ÷\n× 0061 ÷ 0062 ÷\n× D800 ÷\n# done\n";

pub const FOUR_LINES_TEXT: &str = "D 2 1 ÷ × 28\nR 3 7\nT 3 1 1 1\n";

/// In form Plain, the same in both profiles.
pub static PLAIN: [(&str, &str); 11] = [
    (FOUR_LINES, FOUR_LINES_TEXT),
    ("", "T 0 0 0 0\n"),
    ("\n \n#\n\r\n", "T 0 0 0 0\n"),
    ("\u{FEFF}", "T 0 0 0 0\n"),
    ("\n\u{FEFF}", "R 2 0\nT 1 0 0 1\n"),
    ("\u{FEFF}×\n", "T 1 1 0 0\n"),
    ("× 0061 ÷", "T 1 1 0 0\n"),
    ("× 0061 ÷\r\n", "T 1 1 0 0\n"),
    ("\n# a\n× 0061 × 0062 ×\n", "D 3 2 × ÷ 3\nT 1 0 1 0\n"),
    ("÷ 0061 ÷ 0062 ÷\n× 0061 ÷\n", "D 1 0 ÷ × 2\nT 2 1 1 0\n"),
    (
        "× 0061 × 0020 × 2019 ÷ 0301 × 0062 ÷\n",
        "D 1 2 × ÷ 18\nT 1 0 1 0\n",
    ),
];

/// In form Plain in the first profile.
pub static FIRST: [(&str, &str); 1] = [(QUOTED, "D 1 2 × ÷ 18\nT 1 0 1 0\n")];

/// In form Plain in the second profile.
pub static SECOND: [(&str, &str); 1] = [(QUOTED, "D 1 3 ÷ × 9\nT 1 0 1 0\n")];

const QUOTED: &str = "× 0061 × 0020 × 2019 ÷ 0301 × 002C ÷\n";

/// In form Kinds.
pub static KINDS: [(&str, &str); 3] = [
    ("× 0061 × 0062 × 0020 ÷ 0063 × 0064 !", "T 1 1 0 0\n"),
    (
        "× 0061 × 0062 × 0020 ÷ 0063 × 0064 ÷",
        "D 1 5 ÷ ! 3\nT 1 0 1 0\n",
    ),
    (
        "× 0061 ! 0062 !\n!\n",
        "D 1 1 ! × 28\nD 2 0 ! × 2\nT 2 0 2 0\n",
    ),
];
