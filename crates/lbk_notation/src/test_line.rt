//! A line of the notation: scalars, and a mark at each position.

ghost use Rattle.std.specs.Prelude.{◌≡◌, ◌+◌, length};
ghost use Rattle.lbk_notation.specs.TestLine.{made};

use super::marks::Mark;
use std::marker::Model;

/// A line of the notation: scalars, and a mark at each position, from the one before the first scalar to
/// the one after the last.
///
/// ```rust
/// let line = mark_text(rt.alloc(), &cells, "b d", Profile::First)?;
/// let bytes = write_line(rt.alloc(), &line, Form::Kinds)?;
/// assert_eq!(&rt; bytes.as_slice(), "× 0062 × 0020 ÷ 0064 !".as_bytes());
/// ```
#[derive(Drop)]
pub struct TestLine {
    scalars: Vec<char>,
    marks: Vec<Mark>,
}

impl Model for TestLine {
    ghost use Rattle.std.specs.Prelude.{◌≡◌, ◌+◌, length};
    ghost use Rattle.lbk_notation.specs.TestLine.{Line};

    ghost Value = { Line };

    ghost view = { λ line. record { scalars = line.scalars.items; marks = line.marks.items } };

    ghost invariant = { λ line. length line.marks.items ≡ length line.scalars.items + 1 };
}

impl TestLine {
    /// A line with these, or `None`, dropping both lists, unless there is one more mark than scalars.
    pub fn new(scalars: Vec<char>, marks: Vec<Mark>) -> Option<TestLine>
        ensures { result ≡ made scalars.items marks.items }
    {
        if marks.is_empty() || marks.len() - 1 != scalars.len() {
            return None;
        }
        Some(TestLine { scalars, marks })
    }

    /// A line with these; there is one more mark than scalars.
    pub(crate) fn of(scalars: Vec<char>, marks: Vec<Mark>) -> TestLine
        requires { length marks.items ≡ length scalars.items + 1 }
        ensures { result ≡ record { scalars = scalars.items; marks = marks.items } }
    {
        TestLine { scalars, marks }
    }

    /// The scalars, in order.
    pub fn scalars(&self) -> &[char]
        ensures value { result.now ≡ self.now.scalars }
        ensures one_less { length self.now.marks ≡ length result.now + 1 }
    {
        &self.scalars
    }

    /// The marks of all positions, one more than scalars.
    pub fn marks(&self) -> &[Mark]
        ensures value { result.now ≡ self.now.marks }
        ensures one_more { length result.now ≡ length self.now.scalars + 1 }
    {
        &self.marks
    }
}
