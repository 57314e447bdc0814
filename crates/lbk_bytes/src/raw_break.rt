//! A break as plain numbers.

/// A break of a text.
#[repr(C)]
#[derive(Clone, Copy)]
pub struct RawBreak {
    /// The offset of the byte after it; the text's length at its end.
    pub at: usize,
    /// Whether the line may or must end there: 1 for May, 2 for Must.
    pub kind: u8,
    /// The number of the rule that decided there: 8 times the rule's own, and the place of its letter.
    pub rule: u8,
}
