//! Laws about breaks, states, digests and empty files. Each is the contract of a function that does nothing.

ghost use Rattle.std.specs.Prelude.{◌≡◌, ℕ, ◌^◌, ◌<◌, ◌≤◌, List, [], ◌∷◌, ◌++◌, drop, length, map};
ghost use Rattle.lbk_calls.specs.Terms.{Break, Cell, Decoded, FlatTable, IsWhole, Profile, digest_with};
ghost use Rattle.lbk_calls.specs.Terms.{pieces_of_utf16, pieces_of_utf32};
ghost use Rattle.lbk_bytes.specs.Bytes.{breaks_of_bytes};
ghost use Rattle.lbk_calls.specs.declared.interface.State.{State};
ghost use Rattle.lbk_rules.specs.Joins.{moved};
ghost use Rattle.lbk_rules.specs.declared.neighbours.Neighbours.{Neighbours};
ghost use Rattle.lbk_ucd.specs.File.{Format, IsLawful, property_of};
ghost use Rattle.lbk_c.specs.Checked.{DifferInOne, numbers_of};
ghost use Rattle.lbk_calls.specs.Coming.{Comes, PositionsCome, UnitsCome};
ghost use Rattle.lbk_words.specs.Words.{words_on};

/// The breaks after a break are those of the rest of the text as a separate text: nothing before a break affects what
/// comes after it. So a text whose first lines are laid out can go on at the start of any line.
pub fn breaks_after_a_break()
    ensures { (profile : Profile) (cell : ℕ → Cell) (text : List ℕ) (front back : List Break) (here : Break)
        → breaks_of_bytes profile cell text ≡ front ++ here ∷ back
        → back ≡ map (moved here.at) (breaks_of_bytes profile cell (drop here.at text)) }
{}

/// What is returned from a state on depends only on the state and on the bytes of the text from its offset on. The
/// bytes before the offset may change, but not their number. The same holds for units, positions and words.
pub fn only_bytes_from_a_state_on()
    ensures breaks { (cell : ℕ → Cell) (kinds : List ℕ) (pairs : Neighbours) (text other : List ℕ) (state : State)
        (to_come : List Break)
        → Comes cell kinds pairs text state to_come → state.at ≤ length other → drop state.at other ≡ drop state.at text
        → Comes cell kinds pairs other state to_come }
    ensures utf16 { (cell : ℕ → Cell) (kinds : List ℕ) (pairs : Neighbours) (text other : List ℕ) (state : State)
        (to_come : List Break)
        → UnitsCome pieces_of_utf16 cell kinds pairs text state to_come → state.at ≤ length other → drop state.at other
        ≡ drop state.at text
        → UnitsCome pieces_of_utf16 cell kinds pairs other state to_come }
    ensures utf32 { (cell : ℕ → Cell) (kinds : List ℕ) (pairs : Neighbours) (text other : List ℕ) (state : State)
        (to_come : List Break)
        → UnitsCome pieces_of_utf32 cell kinds pairs text state to_come → state.at ≤ length other → drop state.at other
        ≡ drop state.at text
        → UnitsCome pieces_of_utf32 cell kinds pairs other state to_come }
    // Of positions, by what the encoding reads of some units.
    ensures positions { (pieces_of : List ℕ → List Decoded) (cell : ℕ → Cell) (kinds : List ℕ) (pairs : Neighbours)
        (text other : List ℕ) (state : State) (to_come : List Break)
        → PositionsCome pieces_of cell kinds pairs text state to_come → state.at ≤ length other → drop state.at other
        ≡ drop state.at text
        → PositionsCome pieces_of cell kinds pairs other state to_come }
    // Of words a state is the byte from which they come.
    ensures words { (text other : List ℕ) (at : ℕ) → drop at other ≡ drop at text → words_on other at
        ≡ words_on text at }
{}

/// A step of a table's digest (FNV-1a) is injective in the number and in the digest before it.
pub fn no_step_leads_two_to_one()
    ensures numbers { (digest one other : ℕ) → digest < 2 ^ 64 → one < 2 ^ 64 → other < 2 ^ 64
        → digest_with digest one ≡ digest_with digest other → one ≡ other }
    ensures digests { (one other number : ℕ) → one < 2 ^ 64 → other < 2 ^ 64 → number < 2 ^ 64
        → digest_with one number ≡ digest_with other number → one ≡ other }
{}

/// An intact table with one number changed is no longer intact, whether the number is the digest or one of those that
/// it covers.
pub fn one_changed_number_is_found()
    ensures content { (table other : FlatTable) (one changed : ℕ) → IsWhole table → IsWhole other → other.digest
        ≡ table.digest
        → DifferInOne table other one changed → changed ≡ one }
    ensures digest { (table other : FlatTable) → IsWhole table → IsWhole other → numbers_of other ≡ numbers_of table
        → other.digest ≡ table.digest }
{}

/// An empty property file has no fault, and each code then has the property's default value.
pub fn empty_files_list_no_code<V: Copy>()
    ensures lawful { (format : Format V) → IsLawful format [] }
    ensures unlisted { (format : Format V) (code : ℕ) → property_of format [] code ≡ format.unlisted }
{}
