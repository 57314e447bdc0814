//! What `segment` writes for texts with the sample files.

/// A text in both profiles.
pub static BOTH: [(&str, &str); 8] = [
    ("", ""),
    ("ab cd", "P 0 5\nS 0 3 May 18\nS 3 5 Must 3\nW 0 2\nW 3 5\n"),
    ("a\r\nb", RETURN),
    ("can't", "P 0 5\nS 0 5 Must 3\nW 0 5\n"),
    ("1,2", "P 0 3\nS 0 3 Must 3\nW 0 3\n"),
    ("$ !", "P 0 3\nS 0 3 Must 3\n"),
    (
        "e\u{301} b",
        "P 0 5\nS 0 4 May 18\nS 4 5 Must 3\nW 0 3\nW 4 5\n",
    ),
    (
        "a\u{C}(b \u{4E00}",
        "P 0 2\nS 0 2 Must 4\nW 0 1\nP 2 8\nS 2 5 May 18\nS 5 8 Must 3\nW 3 4\nW 5 8\n",
    ),
];

/// In the first profile, and in the second.
pub static FIRST: [(&str, &str); 1] = [(
    "a \u{2019}\u{301},",
    "P 0 8\nS 0 2 May 18\nS 2 8 Must 3\nW 0 1\n",
)];

pub static SECOND: [(&str, &str); 1] = [("a \u{2019}\u{301},", "P 0 8\nS 0 8 Must 3\nW 0 1\n")];

const RETURN: &str = "P 0 3\nS 0 3 Must 5\nW 0 1\nP 3 4\nS 3 4 Must 3\nW 3 4\n";
