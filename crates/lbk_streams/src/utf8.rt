//! Streams of bytes.

ghost use Rattle.std.specs.Prelude.{◌≡◌, ◌<◌, ◌≤◌, take};
ghost use Rattle.std.proofs.Common.{rules};
ghost use Rattle.bstr.specs.Utf8.{lead_len};
ghost use Rattle.lbk_bytes.specs.Open.{could_go_on};
ghost use Rattle.lbk_streams.specs.Stands.{front_of};

use crate::cutting::listed;
use crate::stream::{Cut, Four, Stream};
use crate::stream_unit::StreamUnit;
use lbk_bytes::{FillState, RawBreak, fill_common, is_second};
use lbk_rules::{KindSource, Profile};
use lbk_scalars::is_continuation;
use lbk_units::{Unit, UnitScalar};

impl StreamUnit for u8 {
    ghost could_go_on = { could_go_on };

    ghost widest = { 4 };

    ghost carried = { λ bytes. bytes };

    ghost narrow = { Prim.search rules };

    /// Unicode Standard, section 3.9, table 3-7.
    fn could_go_on(bytes: &[u8]) -> bool {
        let first = bytes[0];
        if lead_len(first) <= bytes.len() {
            return false;
        }
        if bytes.len() < 2 {
            return true;
        }
        if !is_second(first, bytes[1]) {
            return false;
        }
        if bytes.len() < 3 {
            return true;
        }
        is_continuation(bytes[2])
    }

    #[inline(always)]
    fn cut_could_go_on(cut: &Cut<u8>) -> bool {
        let bytes = listed(cut.units);
        u8::could_go_on(&bytes[..cut.size])
    }

    #[inline(always)]
    fn cut_of(stream: &Stream) -> Cut<u8> {
        let size = if stream.cut_size < 4 {
            stream.cut_size as usize
        } else {
            4
        };
        let units = Four {
            first: stream.cut[0],
            second: stream.cut[1],
            third: stream.cut[2],
            fourth: stream.cut[3],
        };
        Cut { units, size }
    }

    #[inline(always)]
    fn bytes_of(cut: Cut<u8>) -> [u8; 4]
        requires { cut.size ≤ 4 }
        ensures { take cut.size result ≡ front_of cut }
    {
        listed(cut.units)
    }

    fn first(bytes: &[u8]) -> UnitScalar {
        u8::front(bytes)
    }

    #[inline(always)]
    fn first_of_cut(cut: &Cut<u8>) -> UnitScalar {
        let bytes = listed(cut.units);
        u8::first(&bytes[..cut.size])
    }

    fn fill_piece<K: KindSource>(
        table: &K,
        profile: Profile,
        start: FillState,
        piece: &[u8],
        out: &mut [RawBreak],
    ) -> FillState {
        fill_common(table, profile, start, piece, out)
    }
}

/// How many bytes a scalar takes that begins with this one, or 0 where none does.
fn lead_len(first: u8) -> usize
    ensures { result ≡ lead_len first }
{
    match first {
        0..=0x7F => 1,
        0x80..=0xC1 => 0,
        0xC2..=0xDF => 2,
        0xE0..=0xEF => 3,
        0xF0..=0xF4 => 4,
        _ => 0,
    }
}
