//! The size limits of a text and of a paragraph.

/// The greatest size of a text in bytes: 1 GiB.
pub const TEXT_MAX: u64 = 1_073_741_824;

/// The greatest limit of a paragraph in bytes: 16 MiB.
pub const LIMIT_MAX: u32 = 16_777_216;
