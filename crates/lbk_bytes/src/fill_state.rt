//! How far a call got in a text.

/// How far a call got.
#[derive(Clone, Copy)]
pub struct FillState {
    /// How many breaks are at the front of the block.
    pub count: usize,
    /// The place of the table's row that knows of what was taken.
    pub row: usize,
    /// How many bytes of the text were taken.
    pub at: usize,
}
