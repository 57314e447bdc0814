//! Where a text breaks.

use crate::verdicts::{Kind, Rule};

/// A position in a text where a line may or must end (UAX #14, section 3). The first of `ab cd` is
///
/// ```rust
/// let may = Break {
///     at: 3,
///     kind: Kind::May,
///     rule: Rule::Lb18,
/// };
/// ```
#[derive(Clone, Copy, PartialEq, Eq, Debug)]
pub struct Break {
    /// The offset of the byte after it, from the text's start; the text's length at its end.
    pub at: usize,
    /// Whether a line may or must end there; never `No` in a text's breaks.
    pub kind: Kind,
    /// The rule that decided there.
    pub rule: Rule,
}
