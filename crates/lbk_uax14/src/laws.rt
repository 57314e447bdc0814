//! Laws about the verdicts of a text, over definitions only. Each is the contract of a function with an empty body.
ghost use Rattle.std.specs.Prelude.{◌≡◌, ℕ, ◌+◌, ◌-◌, ◌<◌, ◌≤◌, ◌⊎◌, true, false, not, List, [], ◌∷◌, ◌++◌, length};
ghost use Rattle.std.specs.Prelude.{map, reverse, take, drop, encode_utf8_all, IsSome, IsTrue, Some, None};
ghost use Rattle.std.specs.List.{flat_map};
ghost use Rattle.lbk_uax14.specs.declared.cells.Cell.{Cell};
ghost use Rattle.lbk_uax14.specs.declared.late_machine.LateMachine.{LateMachine};
ghost use Rattle.lbk_uax14.specs.declared.verdicts.Kind.TheVariants.{No, Must};
ghost use Rattle.lbk_values.specs.declared.profile.Profile.{Profile};
ghost use Rattle.lbk_values.specs.declared.profile.Profile.TheVariants.{First, Second};
ghost use Rattle.lbk_uax14.specs.declared.verdicts.Rule.TheVariants.{Lb2};
ghost use Rattle.lbk_uax14.specs.Classes.{mark};
ghost use Rattle.lbk_uax14.specs.Ends.{ends_line, ends_between, end_after, end_of_text, joins, joined_after};
ghost use Rattle.lbk_uax14.specs.Held.{is_held, unanswered, answer_at, late_at, now_at};
ghost use Rattle.lbk_uax14.specs.Breaks.{breaks};
ghost use Rattle.lbk_uax14.specs.Joins.{AreParts, breaks_before, breaks_in, marks_in, must_end_between, of_parts};
ghost use Rattle.lbk_uax14.specs.Marks.{marks};
ghost use Rattle.lbk_uax14.specs.LateFits.{LateFits, held_position};
ghost use Rattle.lbk_uax14.specs.Normal.{normal};
ghost use Rattle.lbk_uax14.specs.Once.{named, came_late, came_now};
ghost use Rattle.lbk_uax14.specs.Units.{heads, next_unit};
ghost use Rattle.lbk_uax14.specs.Verdict.{verdict, verdict_in, verdict_between, verdict_between_in};

/// The paragraph law: after a required break before the end, the text before it affects no verdict (UAX #14, section
/// 6.1, rules LB4 and LB5). For a left and a right list: `left` is before such a position, and `cell` and `more` are
/// between it and another.
pub fn paragraph()
    ensures at { (profile : Profile) (cells : List Cell) (p k : ℕ) → p < length cells → p < k
        → (verdict_in profile cells p).kind ≡ Must
        → verdict_in profile cells k ≡ verdict_in profile (drop p cells) (k - p) }
    ensures between { (profile : Profile) (left : List Cell) (cell : Cell) (more right : List Cell)
        → (verdict_between_in profile left ((cell ∷ more) ++ right)).kind ≡ Must
        → verdict_between_in profile (left ++ cell ∷ more) right
        ≡ verdict_between_in profile (cell ∷ more) right }
{}

/// The look-ahead law of the first profile: no cell after the one at `k` affects the verdict there. So no cell after
/// the first on the right affects the verdict between a left and a right list.
pub fn look_ahead()
    ensures at { (a b : List Cell) (k : ℕ) → take (k + 1) a ≡ take (k + 1) b → verdict a k ≡ verdict b k }
    ensures between { (left a b : List Cell) → take 1 a ≡ take 1 b → verdict_between left a ≡ verdict_between left b }
{}

/// The look-ahead law of the second profile: two lists that agree up to the head of the unit after the cell at `k`, or
/// that both end before it, have the same verdict there. Of a right list only the first cell and the unit after it
/// matter.
pub fn look_ahead_second()
    ensures at { (a b : List Cell) (k n : ℕ) → k < n → take n a ≡ take n b
        → IsSome (next_unit (drop k (take n a))) ⊎ ((length a ≤ n) × (length b ≤ n))
        → verdict_in Second a k ≡ verdict_in Second b k }
    ensures between { (left a b : List Cell) → take 1 a ≡ take 1 b → next_unit a ≡ next_unit b
        → verdict_between_in Second left a ≡ verdict_between_in Second left b }
{}

/// Open positions in the second profile: after some cells a position is open if it is held and no unit followed its
/// closing quotation mark.
pub fn unanswered_position()
    ensures { (profile : Profile) (cells : List Cell) (p : ℕ) → unanswered profile cells ≡ Some p
        → (p < length cells) × IsTrue (is_held profile (take p cells) (drop p cells))
        × (next_unit (drop p cells) ≡ None) }
{}

/// At most one position is open, the one that a machine names.
pub fn unanswered_alone()
    ensures { (profile : Profile) (cells : List Cell) (p : ℕ) → p < length cells
        → IsTrue (is_held profile (take p cells) (drop p cells)) → next_unit (drop p cells) ≡ None
        → unanswered profile cells ≡ Some p }
{}

/// Before more text a line must end exactly between a cell of BK, CR, LF or NL and the next cell, except between CR and
/// LF: by rule 4 after BK, and by rule 5 after the others. Such a position is never held (UAX #14, section 6.1, rules
/// LB2, LB4 and LB5).
pub fn must_end()
    ensures there { (profile : Profile) (left : List Cell) (x y : Cell) (right : List Cell)
        → IsTrue (ends_between x.class y.class)
        → verdict_between_in profile (left ++ x ∷ []) (y ∷ right) ≡ end_after x.class }
    ensures there_alone { (profile : Profile) (left : List Cell) (x y : Cell) (right : List Cell)
        → (verdict_between_in profile (left ++ x ∷ []) (y ∷ right)).kind ≡ Must
        → IsTrue (ends_between x.class y.class) }
    ensures not_held { (profile : Profile) (left : List Cell) (x y : Cell) (right : List Cell)
        → IsTrue (ends_between x.class y.class)
        → is_held profile (left ++ x ∷ []) (y ∷ right) ≡ false }
    ensures not_at_start { (profile : Profile) (right : List Cell)
        → verdict_between_in profile [] right ≡ record { kind = No; rule = Lb2 } }
{}

/// A line must end after all cells of a text that is not empty (UAX #14, section 6.1, rule LB3).
pub fn must_end_of_text()
    ensures between { (profile : Profile) (left : List Cell) (x : Cell)
        → verdict_between_in profile (left ++ x ∷ []) [] ≡ end_of_text }
    ensures at { (profile : Profile) (cells : List Cell) → 0 < length cells
        → verdict_in profile cells (length cells) ≡ end_of_text }
{}

/// Nothing after a cell of BK, CR, LF or NL affects the verdicts before that cell.
pub fn before_line_end()
    ensures between { (profile : Profile) (left middle : List Cell) (x : Cell) (a b : List Cell)
        → IsTrue (ends_line x.class)
        → verdict_between_in profile left (middle ++ x ∷ a) ≡ verdict_between_in profile left (middle ++ x ∷ b) }
    ensures at { (profile : Profile) (cells : List Cell) (x : Cell) (a b : List Cell) (k : ℕ)
        → IsTrue (ends_line x.class) → k ≤ length cells
        → verdict_in profile (cells ++ x ∷ a) k ≡ verdict_in profile (cells ++ x ∷ b) k }
{}

/// No break comes before a mark that joins the cell before it, by rule 9, or by rule 8a after ZWJ, and its position is
/// never held. These marks are the cells that head no unit.
pub fn joined_mark()
    ensures between { (profile : Profile) (left : List Cell) (x y : Cell) (right : List Cell)
        → IsTrue (joins x.class y.class)
        → verdict_between_in profile (left ++ x ∷ []) (y ∷ right) ≡ joined_after x.class }
    ensures not_held { (profile : Profile) (left : List Cell) (cell : Cell) (more : List Cell)
        → IsTrue (mark cell.class) → is_held profile left (cell ∷ more) ≡ false }
    ensures headless { (left : List Cell) (x y : Cell)
        → heads (reverse (left ++ x ∷ [])) y ≡ not (joins x.class y.class) }
    ensures no_break { (profile : Profile) (left : List Cell) (cell : Cell) (more : List Cell)
        → heads (reverse left) cell ≡ false → (verdict_between_in profile left (cell ∷ more)).kind ≡ No }
{}

/// The verdict of a position that is not held depends on what is before it and on the cell after it. The cell after a
/// held one heads a unit.
pub fn held_or_settled()
    ensures settled { (profile : Profile) (left : List Cell) (cell : Cell) (a b : List Cell)
        → is_held profile left (cell ∷ a) ≡ false
        → verdict_between_in profile left (cell ∷ a) ≡ verdict_between_in profile left (cell ∷ b) }
    ensures headed { (profile : Profile) (left : List Cell) (cell : Cell) (more : List Cell)
        → IsTrue (is_held profile left (cell ∷ more)) → IsTrue (heads (reverse left) cell) }
{}

/// A late machine that has taken some cells holds the position that is open after them, and no other.
pub fn machine_holds()
    ensures { (machine : LateMachine) (profile : Profile) (cells : List Cell) → LateFits machine profile cells
        → held_position machine ≡ unanswered profile cells }
{}

/// Steps decide each position once: the positions that a step decides late, leaves open and decides now are the one
/// that was open and its own. The end decides the one that is open then.
pub fn answered_once()
    ensures step { (profile : Profile) (cells : List Cell) (cell : Cell) (more : List Cell)
        → came_late (late_at profile cells cell more)
        ++ named (unanswered profile (cells ++ cell ∷ []))
        ++ came_now (length cells) (now_at profile cells (cell ∷ more))
        ≡ named (unanswered profile cells) ++ length cells ∷ [] }
    ensures end { (profile : Profile) (cells : List Cell)
        → came_late (answer_at profile cells []) ≡ named (unanswered profile cells) }
    ensures first { (cells right : List Cell) → (unanswered First cells ≡ None)
        × (now_at First cells right ≡ Some (verdict_between_in First cells right)) }
{}

/// Properties that no rule uses change no verdict in either profile, nor which positions are held: normal cells have
/// the same verdicts (UAX #14, section 6).
pub fn normal_cells()
    ensures between { (profile : Profile) (left right : List Cell)
        → verdict_between_in profile (map normal left) (map normal right) ≡ verdict_between_in profile left right }
    ensures at { (profile : Profile) (cells : List Cell) (k : ℕ)
        → verdict_in profile (map normal cells) k ≡ verdict_in profile cells k }
    ensures held { (profile : Profile) (left right : List Cell)
        → is_held profile (map normal left) (map normal right) ≡ is_held profile left right }
{}

/// A required break separates two texts. Joined, their marks are those of the whole, except at the end of the first: it
/// is by rule 3 in a text, and by rule 4 or 5 if another text follows. Their breaks are those of the whole, if the
/// length of the first is added to the offsets of the second (UAX #14, section 6.1, rules LB3 to LB5).
pub fn joined_texts()
    ensures marks { (profile : Profile) (cell : ℕ → Cell) (first second : List ℕ)
        → IsTrue (must_end_between cell first second)
        → marks profile cell (first ++ second) ≡ marks_in profile cell true first ++ marks profile cell second }
    ensures breaks { (profile : Profile) (cell : ℕ → Cell) (first second : List ℕ)
        → IsTrue (must_end_between cell first second)
        → breaks profile cell (first ++ second)
        ≡ breaks_before profile cell true first
        ++ breaks_in profile cell (length (encode_utf8_all first)) false second }
{}

/// The same for any number of parts: each is a separate text, given its offset and whether another part follows.
pub fn joined_parts()
    ensures marks { (profile : Profile) (cell : ℕ → Cell) (parts : List (List ℕ)) → AreParts cell parts
        → marks profile cell (flat_map (λ part. part) parts) ≡ of_parts (λ at. marks_in profile cell) 0 parts }
    ensures breaks { (profile : Profile) (cell : ℕ → Cell) (parts : List (List ℕ)) → AreParts cell parts
        → breaks profile cell (flat_map (λ part. part) parts) ≡ of_parts (breaks_in profile cell) 0 parts }
{}
