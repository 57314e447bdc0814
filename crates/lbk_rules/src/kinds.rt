//! Kinds: a number for each cell that the rules tell from the others.

ghost use Rattle.std.specs.Prelude.{◌≡◌, ◌<◌};
ghost use Rattle.lbk_rules.specs.Kinds.{kind_cell, kind_of, quote_at, slot_of};

use lbk_uax14::{Cell, Class, Quote};

/// How many kinds there are. Two of them no cell has, the marks that are unassigned pictographs: no
/// rule asks a mark for that.
pub const KINDS: usize = 84;

/// How many places of cells there are, each once for an unassigned pictograph and once for others.
const SLOTS: u8 = 42;

/// The place of an opening parenthesis that is wide.
const WIDE_OPEN: u8 = 38;

/// The place of a closing parenthesis that is wide.
const WIDE_CLOSE: u8 = 39;

/// The place of a quotation mark that opens.
const OPENING_MARK: u8 = 40;

/// The place of a quotation mark that closes.
const CLOSING_MARK: u8 = 41;

/// The class of each place: all classes, and after them those that have more than one place.
const CLASSES: [Class; 42] = [
    Class::Alphabetic,
    Class::BreakBoth,
    Class::BreakAfter,
    Class::BreakBefore,
    Class::MandatoryBreak,
    Class::ContingentBreak,
    Class::ClosePunctuation,
    Class::CombiningMark,
    Class::CloseParenthesis,
    Class::CarriageReturn,
    Class::EBase,
    Class::EModifier,
    Class::Exclamation,
    Class::Glue,
    Class::H2,
    Class::H3,
    Class::HebrewLetter,
    Class::Hyphen,
    Class::Ideographic,
    Class::Inseparable,
    Class::InfixNumeric,
    Class::JL,
    Class::JT,
    Class::JV,
    Class::LineFeed,
    Class::NextLine,
    Class::Nonstarter,
    Class::Numeric,
    Class::OpenPunctuation,
    Class::PostfixNumeric,
    Class::PrefixNumeric,
    Class::Quotation,
    Class::RegionalIndicator,
    Class::Space,
    Class::BreakSymbols,
    Class::WordJoiner,
    Class::ZWSpace,
    Class::ZWJ,
    Class::OpenPunctuation,
    Class::CloseParenthesis,
    Class::Quotation,
    Class::Quotation,
];

/// The kind of a cell: all that the rules ask of it, as one number.
#[tactic(auto, unfolding(crate::specs::Kinds::kind_of))]
pub(crate) fn kind_of(cell: Cell) -> u8
    ensures kind { result ≡ kind_of cell }
    ensures few { result < KINDS }
{
    let slot = slot_of(cell);
    if !cell.class.is_mark() && cell.pict_cn {
        slot + SLOTS
    } else {
        slot
    }
}

/// The place of a cell, whether it is an unassigned pictograph or not.
fn slot_of(cell: Cell) -> u8
    ensures slot { result ≡ slot_of cell }
    ensures few { result < SLOTS }
{
    if cell.class.is(Class::OpenPunctuation) && cell.wide {
        WIDE_OPEN
    } else if cell.class.is(Class::CloseParenthesis) && cell.wide {
        WIDE_CLOSE
    } else if cell.is_opening_mark() {
        OPENING_MARK
    } else if cell.is_closing_mark() {
        CLOSING_MARK
    } else {
        cell.class as u8
    }
}

/// The cell of a kind, with nothing that no rule asks of it.
#[tactic(auto, unfolding(crate::specs::Kinds::kind_cell))]
pub(crate) fn cell_of_kind(kind: u8) -> Cell
    requires { kind < KINDS }
    ensures { result ≡ kind_cell kind }
{
    let slot = kind % SLOTS;
    Cell {
        class: CLASSES[usize::from(slot)],
        wide: slot == WIDE_OPEN || slot == WIDE_CLOSE,
        pict_cn: kind >= SLOTS,
        quote: quote_at(slot),
        letter: false,
    }
}

/// Whether a cell of this place opens or closes a quotation.
fn quote_at(slot: u8) -> Quote
    ensures { result ≡ quote_at slot }
{
    match slot {
        OPENING_MARK => Quote::Initial,
        CLOSING_MARK => Quote::Final,
        _ => Quote::Neither,
    }
}
