//! Where the last line of a text begins.

ghost use Rattle.std.specs.Prelude.{◌≡◌, ℕ, ◌-◌, ◌<◌, ◌≤◌, [], length, drop};
ghost use Rattle.bstr.specs.Utf8.{pieces};
ghost use Rattle.lbk_calls.specs.Terms.{Cell, IsFlatBy, IsFlatOf, Profile};
ghost use Rattle.lbk_calls.specs.State.{profile_number};
ghost use Rattle.lbk_bytes.specs.Bytes.{breaks_of_bytes};
ghost use Rattle.lbk_bytes.specs.Reached.{onward};
ghost use Rattle.lbk_streams.specs.Cuts.{CutsBefore, IsSafeCut};
ghost use Rattle.lbk_c.specs.SafeBreaks.{IsSafeBreak, last_line};

use lbk_bytes::{decide_one, profile_numbered};
use lbk_rules::{FlatTable, KindSource, Profile, shows_break};
use lbk_streams::cut_before;

/// The last break before the end of a text, or 0 if there is none. The breaks after it are those of the text that
/// begins there. It reads the last paragraph of the text. If the number names no profile, it is the last cut before the
/// end.
#[unsafe(no_mangle)]
pub extern "C" fn lbk_safe_break(table: &FlatTable, profile: u8, text: &[u8]) -> usize
    ensures within { result ≤ length text.now }
    ensures before_end { 0 < length text.now → result < length text.now }
    ensures last { (cell : ℕ → Cell) (rules : Profile) → IsFlatOf table.now cell → profile ≡ profile_number rules
        → result ≡ last_line 0 (breaks_of_bytes rules cell text.now) }
    ensures safe { (cell : ℕ → Cell) (rules : Profile) → IsFlatOf table.now cell → profile ≡ profile_number rules
        → IsSafeBreak rules cell text.now result }
    ensures behind_cuts { (cell : ℕ → Cell) (place : ℕ) → IsFlatOf table.now cell → IsSafeCut cell text.now place
        → place < length text.now
        → place ≤ result }
    ensures unknown { 1 < profile → CutsBefore pieces table.now.kinds table.now.pairs text.now (length text.now - 1)
        result }
{
    safe_break(table, profile, text)
}

/// `lbk_safe_break` over any source of kinds.
pub fn safe_break<K: KindSource>(table: &K, profile: u8, text: &[u8]) -> usize
    ensures within { result ≤ length text.now }
    ensures before_end { 0 < length text.now → result < length text.now }
    ensures last { (cell : ℕ → Cell) (rules : Profile)
        → IsFlatBy (K.kinds_of table.now) (K.pairs_of table.now) cell
        → profile ≡ profile_number rules
        → result ≡ last_line 0 (breaks_of_bytes rules cell text.now) }
    ensures safe { (cell : ℕ → Cell) (rules : Profile)
        → IsFlatBy (K.kinds_of table.now) (K.pairs_of table.now) cell
        → profile ≡ profile_number rules
        → IsSafeBreak rules cell text.now result }
    ensures behind_cuts { (cell : ℕ → Cell) (place : ℕ)
        → IsFlatBy (K.kinds_of table.now) (K.pairs_of table.now) cell
        → IsSafeCut cell text.now place
        → place < length text.now
        → place ≤ result }
    ensures unknown { 1 < profile
        → CutsBefore pieces (K.kinds_of table.now) (K.pairs_of table.now) text.now (length text.now - 1) result }
{
    let cut = cut_before(table, text, text.len().saturating_sub(1));
    match profile_numbered(profile) {
        Some(rules) => last_break(table, rules, text, cut),
        None => cut,
    }
}

/// The last break before the end of a text, of the part of it that begins at a byte, or that byte.
fn last_break<K: KindSource>(table: &K, rules: Profile, text: &[u8], cut: usize) -> usize
    requires { cut ≤ length text.now }
    ensures within { (cut ≤ result) × (result ≤ length text.now) }
    ensures before_end { cut < length text.now → result < length text.now }
    ensures last { (cell : ℕ → Cell) → IsFlatBy (K.kinds_of table.now) (K.pairs_of table.now) cell
        → result ≡ last_line cut (onward rules cell [] cut (pieces (drop cut text.now))) }
{
    let mut last = cut;
    let mut row = 0;
    let mut at = cut;
    while at < text.len() {
        let decided = decide_one(table, rules, row, at, text);
        if shows_break(decided.shown) {
            last = at;
        }
        row = decided.row;
        at = decided.at;
    }
    last
}
