//! How far a text that arrives in pieces was read.

/// How far a text that arrives in pieces of units was read. All zeros mean its start, in the first profile.
#[repr(C)]
#[derive(Clone, Copy)]
pub struct Stream {
    /// How many units of the stream were read as scalars.
    pub at: u64,
    /// The offset of the position that waits for what follows, if one does.
    pub held_at: u64,
    /// The index of the row that has what the rules need to know of the scalars.
    pub row: u16,
    /// The number of the verdict at the position that waits, if what follows leaves the quotation open; 0 if none
    /// waits.
    pub held_code: u16,
    /// The units after those read as scalars, as bytes: in UTF-16 two bytes a unit, the low one first.
    pub cut: [u8; 4],
    /// How many units these are.
    pub cut_size: u8,
    /// The number of the profile: 0 for the first, 1 for the second.
    pub profile: u8,
    /// 1 once the end was returned.
    pub ended: u8,
}

/// What a call did with a piece.
#[repr(C)]
#[derive(Clone, Copy)]
pub struct Fed {
    /// How many of its units were taken.
    pub taken: usize,
    /// How many breaks are at the front of the block.
    pub count: usize,
}

/// Where a stream stands between two scalars.
#[derive(Clone, Copy)]
pub(crate) struct StreamPosition {
    pub(crate) at: u64,
    pub(crate) held_at: u64,
    pub(crate) row: u16,
    pub(crate) held_code: u16,
}

/// Four units.
#[derive(Clone, Copy)]
pub struct Four<U> {
    pub first: U,
    pub second: U,
    pub third: U,
    pub fourth: U,
}

/// At most four units after the place.
#[derive(Clone, Copy)]
pub struct Cut<U> {
    pub units: Four<U>,
    pub size: usize,
}

/// How far a call got.
#[derive(Clone, Copy)]
pub(crate) struct Feeding<U> {
    pub(crate) place: StreamPosition,
    pub(crate) cut: Cut<U>,
    /// How many units of the piece were taken.
    pub(crate) taken: usize,
    /// How many breaks are at the front of the block.
    pub(crate) count: usize,
}
