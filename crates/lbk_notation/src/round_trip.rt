//! Round trips: a written line is read back.

ghost use Rattle.std.specs.Prelude.{◌≡◌, ◌+◌, ◌<◌, ◌≤◌, ◌⊎◌, ℕ, List, Some, length, IfOk, IfErr, OnOk};
ghost use Rattle.std.specs.Char.{IsScalar};
ghost use Rattle.std.specs.List.{AllByRecursion};
ghost use Rattle.std.specs.Str.{encode_utf8_all};
ghost use Rattle.lbk_feed.specs.Text.{greatest_limit};
ghost use Rattle.lbk_notation.specs.Fault.{longest};
ghost use Rattle.lbk_notation.specs.Reading.{IsReadAs};
ghost use Rattle.lbk_notation.specs.declared.marks.Form.TheVariants.{Kinds};
ghost use Rattle.lbk_notation.specs.Shown.{passage_line, passage_marks};
ghost use Rattle.lbk_notation.specs.Written.{shown_line, written_line};
ghost use Rattle.lbk_notation.specs.declared.faults.LineFault.TheVariants.{LineTooLong, Memory};
ghost use Rattle.lbk_rules.specs.declared.Verdict.{Verdict};

use super::faults::LineFault;
use super::line_reading::read_line;
use super::marks::Form;
use super::test_line::TestLine;
use super::writing::write_line;
use std::alloc::Global;

/// Writes a line and reads it back: in form Kinds the line itself, in Plain the line with each Must as a May. Returns
/// `LineTooLong` if the written line has over 268,435,456 bytes, and `Memory` if an allocation fails.
pub fn read_back(alloc: Global, line: &TestLine, form: Form) -> Result<Option<TestLine>, LineFault>
    ensures same { IfOk result (λ read. read ≡ Some (shown_line form line.now)) }
    ensures within { OnOk result (length (written_line form line.now) ≤ longest) }
    ensures fault { IfErr result (λ fault. (fault ≡ Memory)
        ⊎ ((fault ≡ LineTooLong) × (longest < length (written_line form line.now)))) }
{
    let text = write_line(alloc, line, form)?;
    read_line(alloc, &text, form)
}

/// Reads a line in form Kinds. The line written for a passage of at most 16,777,216 bytes, with the rules' labels in
/// its comment, is read as the passage's scalars and marks, or `Memory` is returned.
pub fn read_passage_line(alloc: Global, bytes: &[u8]) -> Result<Option<TestLine>, LineFault>
    // For any bytes, the result of `read_line` in form Kinds.
    ensures read { IsReadAs Kinds bytes.now result }
    // For the line of a passage, its scalars and marks, or out of memory.
    ensures same { (scalars : List ℕ) (verdicts : List Verdict) → bytes.now ≡ passage_line scalars verdicts
        → length verdicts ≡ length scalars + 1 → AllByRecursion (λ scalar. IsScalar scalar) scalars
        → IfOk result (λ read. read ≡ Some (passage_marks scalars verdicts)) }
    ensures fault { (scalars : List ℕ) (verdicts : List Verdict) → bytes.now ≡ passage_line scalars verdicts
        → length verdicts ≡ length scalars + 1 → AllByRecursion (λ scalar. IsScalar scalar) scalars
        → length (encode_utf8_all scalars) ≤ greatest_limit → IfErr result (λ fault. fault ≡ Memory) }
{
    read_line(alloc, bytes, Form::Kinds)
}
