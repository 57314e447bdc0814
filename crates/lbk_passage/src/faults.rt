//! Why a segmenter is refused, or stops.

ghost use Rattle.std.specs.Prelude.{◌≡◌};
ghost use Rattle.lbk_passage.specs.Faults.{passage_fault};

use lbk_feed::FeedFault;

/// Why a segmenter is refused, or gives no passage.
#[derive(Clone, Copy, Debug, PartialEq, Eq)]
pub enum PassageFault {
    /// The limit is not 1 to 16,777,216 bytes. It is examined first.
    Limit,
    /// Memory could not grow. The passage stays, and the same call can be made again.
    Memory,
    /// The reader failed in this call.
    Read,
    /// The bytes of the text from `at` on, counted from 0, are ill-formed, or the text ended inside a scalar there
    /// (Unicode Standard, Table 3-7).
    NotUtf8 { at: u64 },
    /// More than 1,073,741,824 bytes were read, and the first of them are well-formed, or end inside a scalar.
    TextTooLong,
    /// The paragraph that begins at byte `start` of the text holds a scalar that ends past `start` and the limit.
    ParagraphTooLong { start: u64 },
    /// An earlier call has returned `Read`, `NotUtf8`, `TextTooLong` or `ParagraphTooLong`.
    Spent,
}

/// The fault of the feed, as a segmenter returns it.
pub fn from_feed(fault: FeedFault) -> PassageFault
    ensures { result ≡ passage_fault fault }
{
    match fault {
        FeedFault::Read => PassageFault::Read,
        FeedFault::NotUtf8 { at } => PassageFault::NotUtf8 { at },
        FeedFault::TextTooLong => PassageFault::TextTooLong,
        FeedFault::Spent => PassageFault::Spent,
    }
}
