//! A text that arrives in pieces.

ghost use Rattle.std.specs.Prelude.{length};
ghost use Rattle.lbk_c.specs.Feeds.{TakesBytes, TakesUtf16};

use lbk_bytes::RawBreak;
use lbk_rules::FlatTable;
use lbk_streams::{Fed, Stream, feed};

/// Takes the next piece of a stream, and writes the breaks that it settles (UAX #14, section 3) to the front of the
/// block, as many as it holds. It takes all bytes of the piece, unless the block is full. If `last` is set, nothing
/// follows the piece: then all breaks are settled, and the end is the last one.
///
/// The bytes may be any. The breaks of all calls are those of `lbk_breaks` for the joined pieces, with offsets from the
/// start of the stream, or of the text that it is a part of. If the block has no room, nothing is taken and the stream
/// is unchanged. If the stream has ended or its profile is unknown, all is taken and no break is returned. With any
/// table and stream, the breaks are breaks of rules, and a loop of calls while the block is full terminates. With any
/// table, the offsets of a stream rise from its start.
#[unsafe(no_mangle)]
pub extern "C" fn lbk_feed(
    table: &FlatTable,
    stream: &mut Stream,
    piece: &[u8],
    last: bool,
    out: &mut [RawBreak],
) -> Fed
    ensures { TakesBytes table.now.kinds table.now.pairs stream.old stream.new piece.now last (length out.old) out.new
        result }
{
    feed::<u8, FlatTable>(table, stream, piece, last, out)
}

/// Takes the next piece of a stream in UTF-16, as `lbk_feed` does for UTF-8: offsets count units of 16 bits, and a
/// piece may end inside a surrogate pair. The units may be any. The breaks of all calls are those of `lbk_breaks_utf16`
/// for the joined pieces. A lone surrogate is read as U+FFFD (Unicode Standard, section 3.9, D91).
///
/// If the block has no room, nothing is taken and the stream is unchanged. If the stream has ended or its profile is
/// unknown, all is taken and no break is returned. With any table and stream, the breaks are breaks of rules, and a
/// loop of calls while the block is full terminates. With any table, the offsets of a stream rise from its start.
#[unsafe(no_mangle)]
pub extern "C" fn lbk_feed_utf16(
    table: &FlatTable,
    stream: &mut Stream,
    piece: &[u16],
    last: bool,
    out: &mut [RawBreak],
) -> Fed
    ensures { TakesUtf16 table.now.kinds table.now.pairs stream.old stream.new piece.now last (length out.old) out.new
        result }
{
    feed::<u16, FlatTable>(table, stream, piece, last, out)
}
