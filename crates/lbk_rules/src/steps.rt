//! Steps: what happens at a cell of some kind after some cells, in either profile.

ghost use Rattle.std.specs.Prelude.{◌≡◌, ◌%◌, ◌/◌, ◌==◌, ℕ, Some, false, map, not, true};
ghost use Rattle.lbk_rules.specs.declared.kinds.TheConstants.{KINDS};
ghost use Rattle.lbk_rules.specs.declared.steps.TheConstants.{WIDTH};
ghost use Rattle.lbk_rules.specs.FlatTable.{IsFlatStep};
ghost use Rattle.lbk_rules.specs.Kinds.{kind_cell, real_kind};
ghost use Rattle.lbk_rules.specs.Rows.{AreSteps, IsPlace, IsShown, IsStepFrom, cells_of, left_at, place_by, shown_of};
ghost use Rattle.lbk_rules.specs.Rows.{step_by, steps_in, verdict_shown, with_kind};
ghost use Rattle.lbk_rules.specs.Terms.{facts, First, is_no, Kind, kind_number, normal, Profile, Rule, rule_number};
ghost use Rattle.lbk_rules.specs.Terms.{rules, Second, Side, Verdict};

use crate::kinds::{KINDS, cell_of_kind};
use crate::row_steps::{FIRST_STEPS, ROWS, SECOND_STEPS};
use lbk_uax14::{Kind, Left, Profile, Rule, Verdict};

/// How many steps a row has: one for each number that 7 bits have, so that any number is that of one, once it is
/// masked.
pub const WIDTH: usize = 128;

/// The number of rule 15b.
const RULE_15B: u16 = 8 * 15 + 2;

/// The number of the verdict by rule 15b, by which no line breaks: where it is shown the position is held.
pub const HELD: u16 = 256 * RULE_15B;

/// What happens at a cell of some kind after some cells. Each row of steps knows what the rules ask of some cells,
/// and is named by its place: 128 times its number among the rows. The row at 0 knows of no cell.
#[repr(C)]
#[derive(Clone, Copy, PartialEq, Eq, Debug)]
pub struct Step {
    /// The number of the verdict before the cell: 256 times that of its rule, and that of its kind. In the second
    /// profile, of the verdict where what follows leaves a closing quotation mark closed.
    pub shown: u16,
    /// The place of the row after the cell.
    pub next: u16,
}

/// The steps of a profile, from each row.
pub type Rows = [[Step; WIDTH]; ROWS];

/// The steps of a profile.
pub fn rows_of(profile: Profile) -> &'static Rows
    ensures { result.now ≡ steps_in profile }
{
    match profile {
        Profile::First => &FIRST_STEPS,
        Profile::Second => &SECOND_STEPS,
    }
}

/// The step from the row at a place by a kind, of either profile. A number that is no kind's is masked, and then is
/// that of one. It is counted first, so that only the read itself waits for the row; and the step is not copied, since
/// the place of the next row would be cut out of a number of 32 bits.
#[inline(always)]
pub fn step_at(rows: &Rows, place: usize, kind: u8) -> &Step
    requires place { IsPlace place }
    requires steps { AreSteps rows.now }
    ensures begins { IsPlace result.now.next }
    ensures shows { IsShown result.now.shown }
    ensures read { result.now ≡ step_by rows.now place kind }
{
    let all = rows.as_flattened();
    &all[usize::from(kind) % WIDTH..][place]
}

/// The step of a profile from the row at a place by a kind.
#[inline(always)]
pub fn step_in(profile: Profile, place: usize, kind: u8) -> Step
    requires { IsPlace place }
    ensures begins { IsPlace result.next }
    ensures shows { IsShown result.shown }
    ensures read { result ≡ step_by (steps_in profile) place kind }
{
    *step_at(rows_of(profile), place, kind)
}

/// The place of a row by a number of 16 bits: the number, if a row begins there, and else the place of some row.
#[inline(always)]
pub fn place_by(number: u16) -> usize
    ensures place { IsPlace result }
    ensures number { result ≡ place_by number }
    ensures same { IsPlace number → result ≡ number }
{
    usize::from(number) % (WIDTH * ROWS) / WIDTH * WIDTH
}

/// The number of 16 bits for a place: the one that stood there before, if it names the place.
#[inline(always)]
pub fn number_at(place: usize, before: u16) -> u16
    requires { IsPlace place }
    ensures same { IsPlace before → result ≡ place }
    ensures kept { place ≡ place_by before → result ≡ before }
{
    if place_by(before) == place {
        return before;
    }
    place as u16
}

/// What the steps by a kind from the row at a place tell, in both profiles.
pub fn steps_decide()
    ensures { (place kind : ℕ) → IsPlace place
        → IsFlatStep (left_at place) (kind_cell (real_kind kind)) (step_by (steps_in First) place kind)
        (step_by (steps_in Second) place kind) }
{}

/// Whether the first of these is the kind of a cell.
#[inline(always)]
pub(crate) fn are_some(kinds: &[u8; 3]) -> bool
    ensures { result ≡ true → (facts (cells_of kinds.now)).empty ≡ false }
{
    usize::from(kinds[0]) < KINDS
}

/// What is known of the cells of these kinds.
pub(crate) fn known_of(kinds: &[u8; 3]) -> Left
    ensures { result ≡ facts (cells_of kinds.now) }
{
    let far = with_kind(Left::start(), kinds[2]);
    with_kind(with_kind(far, kinds[1]), kinds[0])
}

/// What is known once a cell of a kind follows. A number that is no kind's stands for none.
fn with_kind(left: Left, kind: u8) -> Left
    ensures { (side : Side) → facts side ≡ left → result ≡ facts (with_kind kind side) }
{
    if usize::from(kind) < KINDS {
        left.then(cell_of_kind(kind))
    } else {
        left
    }
}

/// Whatever the cells on the left are, some row knows what the rules ask of them: no text needs a row more.
pub fn each_side_has_a_row()
    ensures { (side : Side) → (place : ℕ) × IsPlace place × (facts (map normal side) ≡ left_at place) }
{}

/// The verdict of a number.
#[inline(always)]
pub fn verdict_of(shown: u16) -> Verdict
    ensures { (verdict : Verdict) → shown ≡ shown_of verdict → result ≡ verdict }
{
    Verdict {
        kind: kind_numbered(shown % 256),
        rule: rule_numbered((shown / 256) as u8),
    }
}

/// Whether a line may or must break by the verdict of a number.
#[inline(always)]
pub fn shows_break(shown: u16) -> bool
    requires { IsShown shown }
    ensures { result ≡ not (is_no (verdict_shown shown).kind) }
{
    shown % 256 != 0
}

/// How many kinds of verdicts there are.
const KINDS_OF_VERDICTS: u16 = 3;

/// The number of the verdict by which a line may break by the last rule.
const BY_THE_LAST_RULE: u16 = 256 * (8 * 31) + 1;

/// The number of a verdict: this one, if it is one, and else that by which a line may break by rule 31.
pub fn shown_by(number: u16) -> u16
    ensures shown { IsShown result }
    ensures same { IsShown number → result ≡ number }
{
    if KINDS_OF_VERDICTS <= number % 256 {
        return BY_THE_LAST_RULE;
    }
    match Rule::numbered((number / 256) as u8) {
        Some(_) => number,
        None => BY_THE_LAST_RULE,
    }
}

/// The kinds by their numbers, and Must again, so that any number is that of one, once it is masked, and 0 alone that
/// of No.
static KINDS_BY_NUMBER: [Kind; 4] = [Kind::No, Kind::May, Kind::Must, Kind::Must];

/// The kind of a number: one read, since it is asked for at each character.
#[inline(always)]
fn kind_numbered(number: u16) -> Kind
    ensures { (kind : Kind) → number ≡ kind_number kind → result ≡ kind }
{
    KINDS_BY_NUMBER[usize::from(number % 4)]
}

/// The rule of a number: one read, since it is asked for at each character.
#[inline(always)]
fn rule_numbered(number: u8) -> Rule
    ensures { (rule : Rule) → number ≡ rule_number rule → result ≡ rule }
{
    RULES[usize::from(number)]
}

/// The rules by their numbers, eight for each number of the standard; rule 2 stands where no rule has the number.
#[rattlefmt::skip]
static RULES: [Rule; 256] = [
    Rule::Lb2, Rule::Lb2, Rule::Lb2, Rule::Lb2, Rule::Lb2, Rule::Lb2, Rule::Lb2, Rule::Lb2,
    Rule::Lb2, Rule::Lb2, Rule::Lb2, Rule::Lb2, Rule::Lb2, Rule::Lb2, Rule::Lb2, Rule::Lb2,
    Rule::Lb2, Rule::Lb2, Rule::Lb2, Rule::Lb2, Rule::Lb2, Rule::Lb2, Rule::Lb2, Rule::Lb2,
    Rule::Lb3, Rule::Lb2, Rule::Lb2, Rule::Lb2, Rule::Lb2, Rule::Lb2, Rule::Lb2, Rule::Lb2,
    Rule::Lb4, Rule::Lb2, Rule::Lb2, Rule::Lb2, Rule::Lb2, Rule::Lb2, Rule::Lb2, Rule::Lb2,
    Rule::Lb5, Rule::Lb2, Rule::Lb2, Rule::Lb2, Rule::Lb2, Rule::Lb2, Rule::Lb2, Rule::Lb2,
    Rule::Lb6, Rule::Lb2, Rule::Lb2, Rule::Lb2, Rule::Lb2, Rule::Lb2, Rule::Lb2, Rule::Lb2,
    Rule::Lb7, Rule::Lb2, Rule::Lb2, Rule::Lb2, Rule::Lb2, Rule::Lb2, Rule::Lb2, Rule::Lb2,
    Rule::Lb8, Rule::Lb8a, Rule::Lb2, Rule::Lb2, Rule::Lb2, Rule::Lb2, Rule::Lb2, Rule::Lb2,
    Rule::Lb9, Rule::Lb2, Rule::Lb2, Rule::Lb2, Rule::Lb2, Rule::Lb2, Rule::Lb2, Rule::Lb2,
    Rule::Lb2, Rule::Lb2, Rule::Lb2, Rule::Lb2, Rule::Lb2, Rule::Lb2, Rule::Lb2, Rule::Lb2,
    Rule::Lb11, Rule::Lb2, Rule::Lb2, Rule::Lb2, Rule::Lb2, Rule::Lb2, Rule::Lb2, Rule::Lb2,
    Rule::Lb12, Rule::Lb12a, Rule::Lb2, Rule::Lb2, Rule::Lb2, Rule::Lb2, Rule::Lb2, Rule::Lb2,
    Rule::Lb13, Rule::Lb2, Rule::Lb2, Rule::Lb2, Rule::Lb2, Rule::Lb2, Rule::Lb2, Rule::Lb2,
    Rule::Lb14, Rule::Lb2, Rule::Lb2, Rule::Lb2, Rule::Lb2, Rule::Lb2, Rule::Lb2, Rule::Lb2,
    Rule::Lb15, Rule::Lb15a, Rule::Lb15b, Rule::Lb2, Rule::Lb2, Rule::Lb2, Rule::Lb2, Rule::Lb2,
    Rule::Lb16, Rule::Lb2, Rule::Lb2, Rule::Lb2, Rule::Lb2, Rule::Lb2, Rule::Lb2, Rule::Lb2,
    Rule::Lb17, Rule::Lb2, Rule::Lb2, Rule::Lb2, Rule::Lb2, Rule::Lb2, Rule::Lb2, Rule::Lb2,
    Rule::Lb18, Rule::Lb2, Rule::Lb2, Rule::Lb2, Rule::Lb2, Rule::Lb2, Rule::Lb2, Rule::Lb2,
    Rule::Lb19, Rule::Lb2, Rule::Lb2, Rule::Lb2, Rule::Lb2, Rule::Lb2, Rule::Lb2, Rule::Lb2,
    Rule::Lb20, Rule::Lb2, Rule::Lb2, Rule::Lb2, Rule::Lb2, Rule::Lb2, Rule::Lb2, Rule::Lb2,
    Rule::Lb21, Rule::Lb21a, Rule::Lb21b, Rule::Lb2, Rule::Lb2, Rule::Lb2, Rule::Lb2, Rule::Lb2,
    Rule::Lb22, Rule::Lb2, Rule::Lb2, Rule::Lb2, Rule::Lb2, Rule::Lb2, Rule::Lb2, Rule::Lb2,
    Rule::Lb23, Rule::Lb23a, Rule::Lb2, Rule::Lb2, Rule::Lb2, Rule::Lb2, Rule::Lb2, Rule::Lb2,
    Rule::Lb24, Rule::Lb2, Rule::Lb2, Rule::Lb2, Rule::Lb2, Rule::Lb2, Rule::Lb2, Rule::Lb2,
    Rule::Lb25, Rule::Lb2, Rule::Lb2, Rule::Lb2, Rule::Lb2, Rule::Lb2, Rule::Lb2, Rule::Lb2,
    Rule::Lb26, Rule::Lb2, Rule::Lb2, Rule::Lb2, Rule::Lb2, Rule::Lb2, Rule::Lb2, Rule::Lb2,
    Rule::Lb27, Rule::Lb2, Rule::Lb2, Rule::Lb2, Rule::Lb2, Rule::Lb2, Rule::Lb2, Rule::Lb2,
    Rule::Lb28, Rule::Lb2, Rule::Lb2, Rule::Lb2, Rule::Lb2, Rule::Lb2, Rule::Lb2, Rule::Lb2,
    Rule::Lb29, Rule::Lb2, Rule::Lb2, Rule::Lb2, Rule::Lb2, Rule::Lb2, Rule::Lb2, Rule::Lb2,
    Rule::Lb30, Rule::Lb30a, Rule::Lb30b, Rule::Lb2, Rule::Lb2, Rule::Lb2, Rule::Lb2, Rule::Lb2,
    Rule::Lb31, Rule::Lb2, Rule::Lb2, Rule::Lb2, Rule::Lb2, Rule::Lb2, Rule::Lb2, Rule::Lb2,
];
