//! Laws about the definitions. Each is the contract of a function with an empty body.

ghost use Rattle.std.specs.Prelude.{◌≡◌, ◌≢◌, ℕ, ◌+◌, ◌*◌, ◌≤◌, List, ◌∷◌, ◌++◌, Option, Some, length};
ghost use Rattle.std.specs.Char.{IsScalar};
ghost use Rattle.std.specs.List.{AllByRecursion};
ghost use Rattle.std.specs.Str.{encode_utf8_all};
ghost use Rattle.lbk_notation.specs.declared.marks.Form.{Form};
ghost use Rattle.lbk_notation.specs.declared.marks.Form.TheVariants.{Kinds};
ghost use Rattle.lbk_notation.specs.declared.marks.Mark.{Mark};
ghost use Rattle.lbk_notation.specs.Grammar.{IsLine, IsToken, number_of};
ghost use Rattle.lbk_notation.specs.TestLine.{Line};
ghost use Rattle.lbk_notation.specs.Shown.{passage_line, passage_marks};
ghost use Rattle.lbk_notation.specs.Stream.{HasNoLineEnd};
ghost use Rattle.lbk_notation.specs.Written.{digits_of, token, shown_line, written_line};
ghost use Rattle.lbk_rules.specs.declared.Verdict.{Verdict};

/// A scalar is written as a token of four to six digits, which is read back as the scalar; no other token is read as
/// that scalar.
pub fn tokens()
    ensures token { (scalar : ℕ) → IsScalar scalar → IsToken (digits_of scalar) }
    ensures value { (scalar : ℕ) → IsScalar scalar → number_of (digits_of scalar) ≡ scalar }
    ensures one { (digits : List ℕ) → IsToken digits → digits ≡ digits_of (number_of digits) }
    ensures four { (scalar : ℕ) → 4 ≤ length (token scalar) }
    ensures six { (scalar : ℕ) → length (token scalar) ≤ 6 }
{}

/// Bytes are a line in at most one way: the grammar does not relate them to two values.
pub fn one_value()
    ensures { (form : Form) (bytes : List ℕ) (value other : Option Line) → IsLine form bytes value
        → IsLine form bytes other → other ≡ value }
{}

/// A written line, followed by a tab and a comment, has the same meaning.
pub fn comments()
    ensures { (form : Form) (line : Line) (comment : List ℕ) → length line.marks ≡ length line.scalars + 1
        → AllByRecursion (λ scalar. IsScalar scalar) line.scalars → AllByRecursion (λ byte. byte ≢ 10) comment
        → IsLine form (written_line form line ++ (9 ∷ 35 ∷ comment)) (Some (shown_line form line)) }
{}

/// The line written for a passage, with the labels of the rules in its comment, has at most 12 bytes per byte of the
/// passage's text and 8 more, has no LF, and means the passage's scalars and marks.
pub fn passage_lines()
    ensures short { (scalars : List ℕ) (verdicts : List Verdict) → length verdicts ≡ length scalars + 1
        → length (passage_line scalars verdicts) ≤ 12 * length (encode_utf8_all scalars) + 8 }
    ensures one { (scalars : List ℕ) (verdicts : List Verdict) → HasNoLineEnd (passage_line scalars verdicts) }
    ensures says { (scalars : List ℕ) (verdicts : List Verdict) → length verdicts ≡ length scalars + 1
        → AllByRecursion (λ scalar. IsScalar scalar) scalars
        → IsLine Kinds (passage_line scalars verdicts) (Some (passage_marks scalars verdicts)) }
{}
