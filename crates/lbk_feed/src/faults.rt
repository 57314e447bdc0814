//! Why a feed stops.

/// Why a feed stops before the end of its text.
#[derive(Clone, Copy, Debug, PartialEq, Eq)]
pub enum FeedFault {
    /// The reader failed in this call.
    Read,
    /// The bytes from offset `at` on are ill-formed, or the input ended inside a scalar there.
    ///
    /// `at` is the length of the longest well-formed prefix of what was read, of its first 1,073,741,824 bytes
    /// (Unicode Standard, Table 3-7).
    NotUtf8 { at: u64 },
    /// More than 1,073,741,824 bytes were read, and that many are well-formed, or end inside a scalar.
    TextTooLong,
    /// An earlier call returned one of the other faults.
    Spent,
}
