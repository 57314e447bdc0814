//! Reading a line of the notation.

ghost use Rattle.std.specs.Prelude.{◌≡◌, ◌≤◌, Ok, length, IfOk, IfErr};
ghost use Rattle.lbk_notation.specs.Fault.{longest};
ghost use Rattle.lbk_notation.specs.Reading.{IsReadAs};
ghost use Rattle.lbk_notation.specs.Run.{run_line, IsRunFault};

use super::content::Content;
use super::faults::LineFault;
use super::marks::Form;
use super::reader::{State, Taken, sort_of, step};
use super::test_line::TestLine;
use std::alloc::Global;

/// The longest line, in bytes.
pub(crate) const LONGEST: usize = 268_435_456;

/// Reads a line of the notation, without its line end: its scalars and marks, or `None` for a blank line or a comment.
/// A line over 268,435,456 bytes is `LineTooLong`, which is checked first. One that is not in the notation is `Bad`,
/// with the offset where it stops being the start of any line. `Memory` is returned instead of a line with marks if an
/// allocation fails; the other results need no memory.
pub fn read_line(alloc: Global, bytes: &[u8], form: Form) -> Result<Option<TestLine>, LineFault>
    ensures { IsReadAs form bytes.now result }
{
    if bytes.len() > LONGEST {
        return Err(LineFault::LineTooLong);
    }
    read_bytes(alloc, bytes, form)
}

/// Reads a line that is not too long.
fn read_bytes(alloc: Global, bytes: &[u8], form: Form) -> Result<Option<TestLine>, LineFault>
    requires { length bytes.now ≤ longest }
    ensures line { IfOk result (λ line. run_line form bytes.now ≡ Ok line) }
    ensures fault { IfErr result (λ fault. IsRunFault form bytes.now fault) }
{
    let mut content = Content::new(alloc);
    let mut state = State::Start;
    for (place, byte) in bytes.iter().enumerate() {
        match step(form, state, sort_of(*byte)) {
            Taken::Dead => return Err(LineFault::Bad { at: place as u32 }),
            Taken::On(next) => state = next,
            Taken::OneScalar(scalar) => {
                content.add_scalar(scalar);
                state = State::Coded;
            }
            Taken::OneMark(mark) => {
                content.add_mark(mark);
                state = State::Marked;
            }
        }
    }
    if !state.can_end() {
        return Err(LineFault::Bad {
            at: bytes.len() as u32,
        });
    }
    content.line()
}
