//! The lines that a replay writes.

ghost use Rattle.std.specs.Prelude.{◌≡◌, ◌∷◌, ◌++◌, [], OnOk, decimal};
ghost use Rattle.lbk_rules.specs.Labels.{label_of};
ghost use Rattle.lbk_notation.specs.Marked.{mark_of};
ghost use Rattle.lbk_notation.specs.ReplayText.{finding_text, total_text};
ghost use Rattle.lbk_notation.specs.Grammar.{mark_bytes};
ghost use Rattle.lbk_notation.specs.Written.{shown};

use super::findings::{Finding, Outcome, Report};
use super::marking::mark_of;
use super::marks::{Form, Mark};
use super::writing::push_mark;
use itoa::Buffer;
use lbk_rules::Verdict;
use std::alloc::AllocError;

impl Finding {
    /// Writes the result of a line of the file as a line; nothing for a line that agrees, for a blank one or a comment.
    pub(crate) fn push_to(
        self,
        text: &mut Vec<u8>,
        form: Form,
        number: u32,
    ) -> Result<(), AllocError>
        ensures { OnOk result (text.new.items ≡ text.old.items ++ finding_text form number self) }
    {
        match self {
            Finding::NoLine | Finding::Replayed(Outcome::Agree) => Ok(()),
            Finding::Replayed(
                Outcome::Differ {
                    position,
                    file,
                    rules,
                },
            ) => {
                push_head(text, b"D", number)?;
                push_difference(text, form, position, file, rules)
            }
            Finding::Bad { at } => {
                push_head(text, b"R", number)?;
                push_number(text, at as u64)?;
                push_end(text)
            }
            Finding::Long => {
                push_head(text, b"R", number)?;
                push_word(text, b"long")?;
                push_end(text)
            }
        }
    }
}

/// Writes the counts of a whole file as a line.
pub fn push_total(text: &mut Vec<u8>, report: Report) -> Result<(), AllocError>
    ensures { OnOk result (text.new.items ≡ text.old.items ++ total_text report) }
{
    push_head(text, b"T", report.lines)?;
    push_number(text, report.agreed as u64)?;
    push_number(text, report.differed as u64)?;
    push_number(text, report.refused as u64)?;
    push_end(text)
}

/// The letter and the number at the start of a line.
fn push_head(text: &mut Vec<u8>, letter: &[u8], number: u32) -> Result<(), AllocError>
    ensures { OnOk result (text.new.items ≡ text.old.items ++ (letter.now ++ 32 ∷ decimal number)) }
{
    text.extend_from_slice(letter)?;
    push_number(text, number as u64)
}

/// The position, the line's mark there, the rules' mark, the rule's number, and the line's end.
fn push_difference(
    text: &mut Vec<u8>,
    form: Form,
    position: usize,
    file: Mark,
    rules: Verdict,
) -> Result<(), AllocError>
    ensures { OnOk result (text.new.items ≡ text.old.items
        ++ (32 ∷ (decimal position ++ (32 ∷ (mark_bytes (shown form file)
        ++ (32 ∷ (mark_bytes (shown form (mark_of rules.kind)) ++ (32 ∷ (label_of rules.rule ++ 10 ∷ []))))))))) }
{
    push_number(text, position as u64)?;
    push_shown(text, form, file)?;
    push_shown(text, form, mark_of(rules.kind))?;
    push_word(text, rules.rule.label().as_bytes())?;
    push_end(text)
}

fn push_shown(text: &mut Vec<u8>, form: Form, mark: Mark) -> Result<(), AllocError>
    ensures { OnOk result (text.new.items ≡ text.old.items ++ (32 ∷ mark_bytes (shown form mark))) }
{
    text.push(b' ')?;
    push_mark(text, mark, form)
}

fn push_word(text: &mut Vec<u8>, word: &[u8]) -> Result<(), AllocError>
    ensures { OnOk result (text.new.items ≡ text.old.items ++ (32 ∷ word.now)) }
{
    text.push(b' ')?;
    text.extend_from_slice(word)
}

fn push_number(text: &mut Vec<u8>, number: u64) -> Result<(), AllocError>
    ensures { OnOk result (text.new.items ≡ text.old.items ++ (32 ∷ decimal number)) }
{
    let mut buffer = Buffer::new();
    push_word(text, buffer.format(number).as_bytes())
}

fn push_end(text: &mut Vec<u8>) -> Result<(), AllocError>
    ensures { OnOk result (text.new.items ≡ text.old.items ++ 10 ∷ []) }
{
    text.push(b'\n')?;
    Ok(())
}
