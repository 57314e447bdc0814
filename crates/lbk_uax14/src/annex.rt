//! Laws that the definitions of the rule list mean what the annex's wording says (UAX #14, section 6).

ghost use Rattle.std.specs.Prelude.{◌≡◌, true, if◌then◌else◌, List, [], ◌∷◌, ◌++◌, length, reverse};
ghost use Rattle.lbk_uax14.specs.declared.cells.Cell.{Cell};
ghost use Rattle.lbk_uax14.specs.Classes.{Set};
ghost use Rattle.lbk_uax14.specs.Sides.{past_spaces, at_odd_run, opens_quotation, closes_quotation};
ghost use Rattle.lbk_uax14.specs.Units.{heads, unit, units};
ghost use Rattle.lbk_uax14.specs.Annex.{HasNoSpace, EndsInSpacesAfter, EndsInRun, EndsInOpenQuotation};
ghost use Rattle.lbk_uax14.specs.Annex.{BeginsInClosedQuotation, is_odd, is_head};

/// 'X SP*': some position of the left side has a class of X, a set without SP, and all later positions have SP.
pub fn spaces()
    ensures only { (x : Set) (cells : List Cell) → HasNoSpace x
        → past_spaces x (reverse cells) ≡ true → EndsInSpacesAfter x cells }
    ensures all { (x : Set) (cells : List Cell) → HasNoSpace x
        → EndsInSpacesAfter x cells → past_spaces x (reverse cells) ≡ true }
{}

/// Rule LB30a counts the longest run of indicators at the end of the left side.
pub fn indicators()
    ensures { (cells run : List Cell) → EndsInRun cells run → at_odd_run (reverse cells) ≡ is_odd (length run) }
{}

/// The units of a list are its heads, in order (rules LB9 and LB10). The test for a head that reads the cells outwards
/// is the same.
pub fn heads()
    ensures none { units [] ≡ [] }
    ensures one_more { (cells : List Cell) (cell : Cell) → units (cells ++ cell ∷ [])
        ≡ (if is_head cells cell then units cells ++ unit cell ∷ [] else units cells) }
    ensures outwards { (cells : List Cell) (cell : Cell) → heads (reverse cells) cell ≡ is_head cells cell }
{}

/// Rule LB15a asks whether the left side has an opening quotation mark, with nothing before it or with something that
/// leaves it open, and only SP after it.
pub fn opening_quotation()
    ensures only { (cells : List Cell) → opens_quotation (reverse cells) ≡ true → EndsInOpenQuotation cells }
    ensures all { (cells : List Cell) → EndsInOpenQuotation cells → opens_quotation (reverse cells) ≡ true }
{}

/// Rule LB15b asks whether the right side begins with a closing quotation mark, with nothing after it or with something
/// that leaves it closed.
pub fn closing_quotation()
    ensures only { (cells : List Cell) → closes_quotation cells ≡ true → BeginsInClosedQuotation cells }
    ensures all { (cells : List Cell) → BeginsInClosedQuotation cells → closes_quotation cells ≡ true }
{}
