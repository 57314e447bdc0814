//! Hints on standard error.

/// The hint for a run without arguments.
pub const SAMPLES: &str =
    "built-in sample data, for a first look only; for your own text: lbk mark FILE";

/// The hint for a truncated property file, after its description.
pub const CUT: &str = "breaks at the missing characters will be wrong";

/// The hint that the program waits for text on a terminal.
pub const WAITING: &str =
    "waiting for text from the terminal; to end it, press Ctrl-D at the start of a line";

/// The hint for refused lines of a replay that have `!`.
pub const KINDS: &str = "to read lines with ! (a required break), add --kinds";
