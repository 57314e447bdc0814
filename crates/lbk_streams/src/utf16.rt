//! Streams of units of 16 bits.

ghost use Rattle.std.specs.Prelude.{◌≡◌, ◌≤◌, take};
ghost use Rattle.std.proofs.Common.{rules};
ghost use Rattle.std.specs.Char.Utf16.{is_high_surrogate};
ghost use Rattle.lbk_streams.specs.Stands.{front_of};
ghost use Rattle.lbk_streams.specs.Streams.{could_go_on_utf16, units_in};

use crate::cutting::listed;
use crate::stream::{Cut, Four, Stream};
use crate::stream_unit::StreamUnit;
use lbk_bytes::{FillState, RawBreak};
use lbk_rules::{KindSource, Profile};
use lbk_units::{Breaks, Unit, UnitScalar, fill_part};

impl StreamUnit for u16 {
    ghost could_go_on = { could_go_on_utf16 };

    ghost widest = { 2 };

    ghost carried = { units_in };

    ghost narrow = { Prim.search rules };

    /// Only a high surrogate could go on (Unicode Standard, section 3.9, D91).
    fn could_go_on(units: &[u16]) -> bool {
        units.len() == 1 && is_high(units[0])
    }

    #[inline(always)]
    fn cut_could_go_on(cut: &Cut<u16>) -> bool {
        let units = listed(cut.units);
        u16::could_go_on(&units[..cut.size])
    }

    #[inline(always)]
    fn cut_of(stream: &Stream) -> Cut<u16> {
        let size = if stream.cut_size < 2 {
            stream.cut_size as usize
        } else {
            2
        };
        let first = u16::from(stream.cut[0]) + 256 * u16::from(stream.cut[1]);
        let second = u16::from(stream.cut[2]) + 256 * u16::from(stream.cut[3]);
        let units = Four {
            first,
            second,
            third: 0,
            fourth: 0,
        };
        Cut { units, size }
    }

    #[inline(always)]
    fn bytes_of(cut: Cut<u16>) -> [u8; 4]
        requires { cut.size ≤ 2 }
        ensures { take cut.size (units_in result) ≡ front_of cut }
    {
        let first = cut.units.first;
        let second = cut.units.second;
        [
            (first % 256) as u8,
            (first / 256) as u8,
            (second % 256) as u8,
            (second / 256) as u8,
        ]
    }

    fn first(units: &[u16]) -> UnitScalar {
        u16::front(units)
    }

    #[inline(always)]
    fn first_of_cut(cut: &Cut<u16>) -> UnitScalar {
        let units = listed(cut.units);
        u16::first(&units[..cut.size])
    }

    fn fill_piece<K: KindSource>(
        table: &K,
        profile: Profile,
        start: FillState,
        piece: &[u16],
        out: &mut [RawBreak],
    ) -> FillState {
        if start.at == piece.len() {
            return start;
        }
        let last = piece.len() - 1;
        if is_high(piece[last]) {
            return fill_part::<u16, Breaks, K>(table, profile, start, &piece[..last], out);
        }
        fill_part::<u16, Breaks, K>(table, profile, start, piece, out)
    }
}

/// Whether a unit may be the first of a surrogate pair.
fn is_high(unit: u16) -> bool
    ensures { result ≡ is_high_surrogate unit }
{
    0xD800 <= unit && unit < 0xDC00
}
