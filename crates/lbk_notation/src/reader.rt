//! The reader of a line: its states, and the effect of a byte.

ghost use Rattle.std.specs.Prelude.{◌≡◌};
ghost use Rattle.lbk_notation.specs.Run.{sort_of, step_of, digits_step, marking, ending, takes_digit, can_end, IsGood};
ghost use Rattle.lbk_notation.specs.declared.reader.State.TheVariants.{Digits};

use super::marks::{Form, Mark};

/// The kinds of bytes in a line.
#[derive(Clone, Copy)]
pub(crate) enum Sort {
    Space,
    Digit(u8),
    /// The first byte of `×` and `÷`.
    Lead,
    Times,
    Division,
    Exclamation,
    Return,
    Hash,
    LineFeed,
    Other,
}

/// What was read of a line so far.
#[derive(Clone, Copy)]
pub(crate) enum State {
    /// White space.
    Start,
    /// The first byte of `×` or `÷`.
    Half,
    /// A mark.
    Marked,
    /// A mark and white space.
    Spaced,
    /// Up to six digits of a token, and their number.
    Digits { count: u8, number: u32 },
    /// A token and white space.
    Coded,
    /// `#`.
    Comment,
    /// The carriage return that ends the line.
    Ended,
}

/// The effect of a byte.
#[derive(Clone, Copy)]
pub(crate) enum Taken {
    /// No line begins with what was read.
    Dead,
    On(State),
    /// White space after a token: its scalar.
    OneScalar(char),
    OneMark(Mark),
}

impl State {
    /// Whether a line may end here.
    pub(crate) fn can_end(self) -> bool
        ensures { result ≡ can_end self }
    {
        match self {
            State::Half | State::Digits { .. } | State::Coded => false,
            _ => true,
        }
    }
}

#[tactic(auto, unfolding(crate::specs::Run::sort_of))]
pub(crate) fn sort_of(byte: u8) -> Sort
    ensures { result ≡ sort_of byte }
{
    match byte {
        b' ' | b'\t' => Sort::Space,
        b'0'..=b'9' => Sort::Digit(byte - b'0'),
        b'A'..=b'F' => Sort::Digit(byte - b'A' + 10),
        0xC3 => Sort::Lead,
        0x97 => Sort::Times,
        0xB7 => Sort::Division,
        b'!' => Sort::Exclamation,
        b'\r' => Sort::Return,
        b'#' => Sort::Hash,
        b'\n' => Sort::LineFeed,
        _ => Sort::Other,
    }
}

/// The effect of a byte of this kind in a state.
pub(crate) fn step(form: Form, state: State, sort: Sort) -> Taken
    requires { IsGood state }
    ensures taken { result ≡ step_of form state sort }
{
    match state {
        State::Start => match sort {
            Sort::Space => Taken::On(State::Start),
            Sort::Lead | Sort::Exclamation => marking(form, sort),
            _ => ending(sort),
        },
        State::Half => match sort {
            Sort::Times => Taken::OneMark(Mark::No),
            Sort::Division => Taken::OneMark(Mark::May),
            _ => Taken::Dead,
        },
        State::Marked => match sort {
            Sort::Space => Taken::On(State::Spaced),
            _ => ending(sort),
        },
        State::Spaced => match sort {
            Sort::Space => Taken::On(State::Spaced),
            Sort::Digit(digit) => Taken::On(State::Digits {
                count: 1,
                number: u32::from(digit),
            }),
            _ => ending(sort),
        },
        State::Digits { count, number } => digits_step(count, number, sort),
        State::Coded => match sort {
            Sort::Space => Taken::On(State::Coded),
            _ => marking(form, sort),
        },
        State::Comment => match sort {
            Sort::LineFeed => Taken::Dead,
            _ => Taken::On(State::Comment),
        },
        State::Ended => Taken::Dead,
    }
}

/// Where a mark may begin.
fn marking(form: Form, sort: Sort) -> Taken
    ensures { result ≡ marking form sort }
{
    match sort {
        Sort::Lead => Taken::On(State::Half),
        Sort::Exclamation => match form {
            Form::Kinds => Taken::OneMark(Mark::Must),
            Form::Plain => Taken::Dead,
        },
        _ => Taken::Dead,
    }
}

/// Where a comment or the final carriage return may begin.
fn ending(sort: Sort) -> Taken
    ensures { result ≡ ending sort }
{
    match sort {
        Sort::Return => Taken::On(State::Ended),
        Sort::Hash => Taken::On(State::Comment),
        _ => Taken::Dead,
    }
}

/// Inside a token.
fn digits_step(count: u8, number: u32, sort: Sort) -> Taken
    requires { IsGood (Digits count number) }
    ensures { result ≡ digits_step count number sort }
{
    match sort {
        Sort::Digit(digit) if takes_digit(count, number) => Taken::On(State::Digits {
            count: count + 1,
            number: 16 * number + u32::from(digit),
        }),
        Sort::Space if count >= 4 => match char::from_u32(number) {
            Some(scalar) => Taken::OneScalar(scalar),
            None => Taken::Dead,
        },
        _ => Taken::Dead,
    }
}

/// Whether a token may continue after these digits: a fifth digit needs a first that is not 0, a sixth needs 10 at the
/// start.
fn takes_digit(count: u8, number: u32) -> bool
    ensures { result ≡ takes_digit count number }
{
    match count {
        4 => 0x1000 <= number,
        5 => number < 0x11000,
        _ => count < 4,
    }
}
