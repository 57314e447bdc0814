//! The breaks and the positions of a text in each encoding, a block at a time.

ghost use Rattle.std.specs.Prelude.{◌≡◌, ℕ, MatchOption, length};
ghost use Rattle.std.specs.Str.{IsUtf8, chars, encode_utf8_all};
ghost use Rattle.lbk_calls.specs.Terms.{AreThoseOfScalars, Cell, Profile, breaks, breaks_of_bytes, breaks_of_utf16};
ghost use Rattle.lbk_calls.specs.Terms.{breaks_of_utf32, encode_utf16_all, pieces, pieces_of_utf16, positions_of_bytes};
ghost use Rattle.lbk_calls.specs.Terms.{positions_of_utf32};
ghost use Rattle.lbk_calls.specs.Calls.{AreAmong, GivesBreaks, GivesBreaksOf, GivesPositionsOf};
ghost use Rattle.lbk_calls.specs.Coming.{IsGoing, IsSpent};
ghost use Rattle.lbk_calls.specs.State.{plain};

use crate::giving::{give_breaks, next_of};
use crate::interface::State;
use lbk_bytes::{RawBreak, plain_number, profile_numbered};
use lbk_rules::{FlatTable, Profile};
use lbk_units::{Breaks, Positions};

/// Writes the next breaks of a text (UAX #14, section 3) to the front of the block, from the state on, and returns how
/// many: as many as the block holds, or all that are left. The text may be any bytes; each maximal subpart of
/// ill-formed bytes is read as U+FFFD (Unicode Standard, section 3.9).
///
/// Returns 0 and leaves the state unchanged if the block has no room, if the end was returned, if the state is past it,
/// or if the profile is unknown. The entries of the block after the breaks are unspecified. With any table and state,
/// the breaks are breaks of rules, in order, from the state's offset on, and the state advances with them.
#[unsafe(no_mangle)]
pub extern "C" fn lbk_breaks(
    table: &FlatTable,
    state: &mut State,
    text: &[u8],
    out: &mut [RawBreak],
) -> usize
    ensures gives { GivesBreaks table.now.kinds table.now.pairs text.now state.old state.new (length out.old) out.new
        result }
    ensures well_formed { (cell : ℕ → Cell) (profile : Profile) → IsUtf8 text.now
        → breaks_of_bytes profile cell text.now ≡ breaks profile cell (chars text.now) }
{
    give_breaks::<false, FlatTable>(table, state, text, out)
}

/// The state with only the profile in its profile number.
pub fn plain(state: &State) -> State
    ensures { result ≡ plain state.now }
{
    let profile = plain_number(state.profile);
    State { profile, ..*state }
}

/// The profile of a state, if a text of this length may have breaks from it on: none if the profile is unknown, all
/// breaks were returned, or the state is past the text.
pub fn going_profile(state: &State, len: usize) -> Option<Profile>
    ensures { MatchOption result (IsSpent state.now len) (λ profile. IsGoing profile state.now len) }
{
    let profile = profile_numbered(state.profile)?;
    if state.ended != 0 {
        return None;
    }
    if len < state.at {
        return None;
    }
    Some(profile)
}

/// Writes the next breaks of a text in UTF-16 to the front of the block, as `lbk_breaks` does for UTF-8, and returns
/// how many. Offsets count units of 16 bits. The text may be any units; a lone surrogate is read as U+FFFD (Unicode
/// Standard, section 3.9, D91).
///
/// Returns 0 and leaves the state unchanged if the block has no room, if the end was returned, if the state is past it,
/// or if the profile is unknown. With any table and state, the breaks are breaks of rules, in order, from the state's
/// offset on, and the state advances with them.
#[unsafe(no_mangle)]
pub extern "C" fn lbk_breaks_utf16(
    table: &FlatTable,
    state: &mut State,
    text: &[u16],
    out: &mut [RawBreak],
) -> usize
    ensures gives { GivesBreaksOf pieces_of_utf16 table.now.kinds table.now.pairs text.now state.old state.new
        (length out.old) out.new result }
    // Of well-formed text the breaks are those of its scalars.
    ensures well_formed { AreThoseOfScalars encode_utf16_all breaks_of_utf16 breaks_of_utf32 }
{
    next_of::<Breaks, u16, FlatTable>(table, state, text, out)
}

/// Writes the next positions of a text to the front of the block, from the state on, and returns how many: as many as
/// the block holds, or all that are left. A text of n scalars has n + 1 positions (UAX #14, section 6): one before each
/// scalar, and one at the end. Each is returned once, with the verdict of the first rule that matches there, also No.
/// The text may be any bytes, read as `lbk_breaks` reads them.
///
/// Returns 0 and leaves the state unchanged if the block has no room, if the end was returned, if the state is past it,
/// or if the profile is unknown. With any table and state, the positions are by rules and in order, from the state's
/// offset on, and the state advances with them.
#[unsafe(no_mangle)]
pub extern "C" fn lbk_positions(
    table: &FlatTable,
    state: &mut State,
    text: &[u8],
    out: &mut [RawBreak],
) -> usize
    ensures gives { GivesPositionsOf pieces table.now.kinds table.now.pairs text.now state.old state.new
        (length out.old) out.new result }
    // The breaks of a text are those of its positions where a line may or must end.
    ensures breaks { AreAmong positions_of_bytes breaks_of_bytes text.now }
    // Of well-formed text the positions are those of its scalars.
    ensures well_formed { AreThoseOfScalars encode_utf8_all positions_of_bytes positions_of_utf32 }
{
    next_of::<Positions, u8, FlatTable>(table, state, text, out)
}
