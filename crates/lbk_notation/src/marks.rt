//! Marks of positions, and the two forms of the notation.

/// The mark of a position in a line of the notation.
#[derive(Clone, Copy, PartialEq, Eq, Debug)]
pub enum Mark {
    /// `×`: no break.
    No,
    /// `÷`: an allowed break; in form Plain any break.
    May,
    /// `!`: a required break; only in form Kinds.
    Must,
}

/// Which marks a line may have.
#[derive(Clone, Copy, PartialEq, Eq, Debug)]
pub enum Form {
    /// The form of the published tests: `×`, and `÷` for every break.
    Plain,
    /// With `!` for a required break.
    Kinds,
}
