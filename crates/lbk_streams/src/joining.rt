//! What holds of the parts of a text, over definitions only: the contract of a function that does nothing.

ghost use Rattle.std.specs.Prelude.{◌≡◌, ◌↔◌, ℕ, ◌+◌, ◌-◌, ◌<◌, ◌≤◌, List, ◌++◌, drop, length};
ghost use Rattle.std.specs.List.{flat_map};
ghost use Rattle.lbk_rules.specs.declared.Cell.{Cell};
ghost use Rattle.lbk_values.specs.declared.profile.Profile.{Profile};
ghost use Rattle.lbk_bytes.specs.Bytes.{breaks_of_bytes};
ghost use Rattle.lbk_streams.specs.Cuts.{
  AreByteParts,
  EndsBefore,
  HasNear,
  IsCutAfter,
  IsCutBefore,
  IsSafeCut,
  JoinsAt,
  breaks_of_parts,
};

/// A text of any bytes may be decided in parts, cut where `cut` cuts it (UAX #14, section 6.1, rules LB3 to LB5).
pub fn joined_parts()
    // In two.
    ensures two { (profile : Profile) (cell : ℕ → Cell) (text : List ℕ) (place : ℕ) → place ≤ length text
        → EndsBefore cell text place
        → JoinsAt profile cell text place }
    // A cut of the whole text cuts the part that it lies in.
    ensures later { (cell : ℕ → Cell) (text : List ℕ) (first second : ℕ) → first < second → second ≤ length text
        → EndsBefore cell text first → EndsBefore cell text second
        → EndsBefore cell (drop first text) (second - first) }
    // So in any number.
    ensures many { (profile : Profile) (cell : ℕ → Cell) (parts : List (List ℕ)) → AreByteParts cell parts
        → breaks_of_bytes profile cell (flat_map (λ part. part) parts) ≡ breaks_of_parts profile cell 0 parts }
{}

/// Bytes far from a cut don't matter: some bytes of a text are cut where the text is, if they have the four bytes
/// before `at` and the four after the cut, or all that are there. So texts with the same bytes near a cut are cut
/// alike.
pub fn only_bytes_near_a_cut()
    // Whether a part may begin at a place is decided by the four bytes on each side.
    ensures place { (cell : ℕ → Cell) (before near after : List ℕ) (place : ℕ) → HasNear before near after place place
        → place ≤ length near
        → (IsSafeCut cell (before ++ (near ++ after)) (length before + place) ↔ IsSafeCut cell near place) }
    // What `cut` returns, by those from four before `at` to four after the cut.
    ensures after { (cell : ℕ → Cell) (before near after : List ℕ) (at result : ℕ) → HasNear before near after at result
        → (IsCutAfter cell (before ++ (near ++ after)) (length before + at) (length before + result)
        ↔ IsCutAfter cell near at result) }
    // And `cut_before`, by those from four before the cut to four after `at`.
    ensures before { (cell : ℕ → Cell) (before near after : List ℕ) (at result : ℕ)
        → HasNear before near after result at
        → (IsCutBefore cell (before ++ (near ++ after)) (length before + at) (length before + result)
        ↔ IsCutBefore cell near at result) }
    // No place has two such cuts.
    ensures one_after { (cell : ℕ → Cell) (text : List ℕ) (at first second : ℕ) → IsCutAfter cell text at first
        → IsCutAfter cell text at second
        → first ≡ second }
    ensures one_before { (cell : ℕ → Cell) (text : List ℕ) (at first second : ℕ) → IsCutBefore cell text at first
        → IsCutBefore cell text at second
        → first ≡ second }
{}
