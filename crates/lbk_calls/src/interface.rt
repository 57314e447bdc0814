//! The types that the calls share with callers in other languages, except the table.

/// How far a text was read. All zeros mean the start of a text, in the first profile.
#[repr(C)]
#[derive(Clone, Copy)]
pub struct State {
    /// How many bytes of the text were read.
    pub at: usize,
    /// The index of the row that has what the rules need to know of them.
    pub row: u16,
    /// The number of the profile: 0 for the first, 1 for the second.
    pub profile: u8,
    /// 1 once the break at the text's end was returned.
    pub ended: u8,
}

/// A rule's number as it is written, without `LB`: ASCII, padded by zeros.
#[repr(C)]
#[derive(Clone, Copy)]
pub struct RuleLabel {
    pub text: [u8; 4],
}

/// The name of a line breaking class: ASCII, padded by zeros.
#[repr(C)]
#[derive(Clone, Copy)]
pub struct ClassLabel {
    pub text: [u8; 4],
}

/// A text of at most 95 bytes: ASCII, padded by zeros.
#[repr(C)]
#[derive(Clone, Copy)]
pub struct Text {
    pub text: [u8; 96],
}
