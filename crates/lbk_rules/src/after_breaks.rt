//! A law about what stands after a break, by the table of steps.

ghost use Rattle.std.specs.Prelude.{◌≡◌, List, ◌∷◌, ◌++◌, false};
ghost use Rattle.lbk_rules.specs.Terms.{Cell, Profile, is_no, verdict_between_in};

/// After a break, allowed or required, the text before it affects no verdict: each is that of the rest as a separate
/// text. Given a left and a right list: `left` is before the break, and `cell` and `more` are between it and another
/// position.
pub fn verdicts_after_a_break()
    ensures { (profile : Profile) (left : List Cell) (cell : Cell) (more right : List Cell)
        → is_no (verdict_between_in profile left (cell ∷ more ++ right)).kind ≡ false
        → verdict_between_in profile (left ++ cell ∷ more) right ≡ verdict_between_in profile (cell ∷ more) right }
{}
