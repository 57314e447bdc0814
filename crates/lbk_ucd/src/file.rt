//! The reader of one property file, line by line.

ghost use Rattle.std.specs.Prelude.{◌≡◌, ◌==◌, [], ◌∷◌, None, Some, IfErr, OnOk, cond};
ghost use Rattle.lbk_ucd.specs.File.{cause_of_room, cause_of_kept, cause_of_entry, cause_beside, valued, row_in};
ghost use Rattle.lbk_ucd.specs.File.{default_in, without_mark};
ghost use Rattle.std.specs.List.{slice_split};
ghost use Rattle.lbk_ucd.specs.Reading.{Adds, IsAnswered, IsRead, count_of};
ghost use Rattle.lbk_ucd.specs.Ranges.{row_of};
ghost use Rattle.lbk_ucd.specs.Shown.{shown_entry, shown_format, lines_left};

use crate::faults::{UcdCause, UcdFault};
use crate::format::{Format, value_named};
use crate::gathered::Gathered;
use crate::property_line::{Entry, Meaning, meaning_of, place_of};
use crate::ranges::{Assigned, LAST_CODE};
use crate::span::Span;
use crate::which::Which;
use std::alloc::Global;

/// The most bytes of a property file.
pub const LONGEST_FILE: usize = 8_388_608;

/// The most bytes of a line, without its LF.
const LONGEST_LINE: usize = 1_024;

/// Reads a file: the values of code points, or its first fault.
pub(crate) fn read_file<V: Copy>(
    alloc: Global,
    which: Which,
    format: &Format<V>,
    bytes: &[u8],
) -> Result<Assigned<V>, UcdFault>
    ensures { IsRead which (shown_format format.now) bytes.now result }
{
    if bytes.len() > LONGEST_FILE {
        return Err(UcdFault {
            file: which,
            line: 0,
            cause: UcdCause::FileTooLong,
        });
    }
    let mut gathered = Gathered::new(alloc, format.unlisted);
    let mut line = 0;
    let mut grown = 0;
    let mut rest = Some(without_mark(bytes));
    while let Some(text) = rest {
        let (first, after) = first_line(text);
        let count = gathered.count();
        line += 1;
        if let Err(cause) = take_line(&mut gathered, format, first) {
            return Err(UcdFault {
                file: which,
                line,
                cause,
            });
        }
        if count < gathered.count() {
            grown = line;
        }
        rest = after;
    }
    match gathered.assigned(alloc) {
        Ok(assigned) => Ok(assigned),
        Err(_) => Err(UcdFault {
            file: which,
            line: grown,
            cause: UcdCause::Memory,
        }),
    }
}

/// Keeps the entry of a line, or returns its first cause.
#[tactic(auto, unfolding(crate::specs::File::cause_beside))]
fn take_line<V: Copy>(
    gathered: &mut Gathered<V>,
    format: &Format<V>,
    line: &[u8],
) -> Result<(), UcdCause>
    ensures none { OnOk result (cause_beside (shown_format format.now) gathered.old.rows.items (count_of gathered.old)
        line.now ≡ None) }
    ensures adds { OnOk result (Adds (row_in (shown_format format.now) line.now)
        (default_in (shown_format format.now) line.now) gathered.old gathered.new) }
    ensures answered { IfErr result (IsAnswered
        (cause_beside (shown_format format.now) gathered.old.rows.items (count_of gathered.old) line.now)
        (row_in (shown_format format.now) line.now) (default_in (shown_format format.now) line.now)) }
{
    if line.len() > LONGEST_LINE {
        return Err(UcdCause::LineTooLong);
    }
    match meaning_of(line, format.defaults) {
        None => Err(UcdCause::RowSyntax),
        Some(Meaning::Nothing) => Ok(()),
        Some(Meaning::Row(entry)) => take_entry(gathered, format, entry, false),
        Some(Meaning::Default(entry)) => take_entry(gathered, format, entry, true),
    }
}

/// Keeps an entry as a row or as a default, or returns its first cause.
#[tactic(auto, unfolding(crate::specs::File::cause_of_entry))]
fn take_entry<V: Copy>(
    gathered: &mut Gathered<V>,
    format: &Format<V>,
    entry: Entry<'_>,
    is_default: bool,
) -> Result<(), UcdCause>
    ensures none { OnOk result (cause_of_entry (shown_format format.now) (cond is_default [] gathered.old.rows.items)
        (count_of gathered.old) (shown_entry entry.entry) ≡ None) }
    ensures adds { OnOk result (Adds (cond is_default None (valued (shown_format format.now) (shown_entry entry.entry)))
        (cond is_default (valued (shown_format format.now) (shown_entry entry.entry)) None) gathered.old gathered.new) }
    ensures answered { IfErr result (IsAnswered
        (cause_of_entry (shown_format format.now) (cond is_default [] gathered.old.rows.items) (count_of gathered.old)
        (shown_entry entry.entry))
        (cond is_default None (valued (shown_format format.now) (shown_entry entry.entry)))
        (cond is_default (valued (shown_format format.now) (shown_entry entry.entry)) None)) }
{
    if entry.last < entry.first || LAST_CODE < entry.last {
        return Err(UcdCause::Range);
    }
    let Some(value) = value_named(format.names, entry.name) else {
        return if format.others {
            Ok(())
        } else {
            Err(UcdCause::UnknownValue)
        };
    };
    let span = Span {
        first: entry.first,
        last: entry.last,
    };
    if is_default {
        keep_default(gathered, span, value)
    } else {
        keep_row(gathered, span, value)
    }
}

/// Keeps a row, unless it shares a code point with a kept one, or there is no room.
fn keep_row<V: Copy>(gathered: &mut Gathered<V>, span: Span, value: V) -> Result<(), UcdCause>
    ensures none { OnOk result (cause_of_kept gathered.old.rows.items (count_of gathered.old) span.first span.last
        ≡ None) }
    ensures adds { OnOk result (Adds (Some (row_of span value)) None gathered.old gathered.new) }
    ensures answered { IfErr result (IsAnswered
        (cause_of_kept gathered.old.rows.items (count_of gathered.old) span.first span.last)
        (Some (row_of span value)) None) }
{
    if gathered.any_shares(span) {
        return Err(UcdCause::Overlap);
    }
    if gathered.is_full() {
        return Err(UcdCause::TooManyRows);
    }
    match gathered.add_row(span, value) {
        Ok(()) => Ok(()),
        Err(_) => Err(UcdCause::Memory),
    }
}

/// Keeps a default, unless there is no room.
fn keep_default<V: Copy>(gathered: &mut Gathered<V>, span: Span, value: V) -> Result<(), UcdCause>
    ensures none { OnOk result (cause_of_room (count_of gathered.old) ≡ None) }
    ensures adds { OnOk result (Adds None (Some (row_of span value)) gathered.old gathered.new) }
    ensures answered { IfErr result (IsAnswered (cause_of_room (count_of gathered.old)) None
        (Some (row_of span value))) }
{
    if gathered.is_full() {
        return Err(UcdCause::TooManyRows);
    }
    match gathered.add_default(span, value) {
        Ok(()) => Ok(()),
        Err(_) => Err(UcdCause::Memory),
    }
}

/// The bytes without a leading byte order mark.
fn without_mark(bytes: &[u8]) -> &[u8]
    ensures { result.now ≡ without_mark bytes.now }
{
    match bytes.strip_prefix(b"\xEF\xBB\xBF") {
        Some(rest) => rest,
        None => bytes,
    }
}

/// The first line, without its LF, and what follows the LF, if there is one.
fn first_line(text: &[u8]) -> (&[u8], Option<&[u8]>)
    ensures { slice_split (λ byte. byte == 10) text.now ≡ result.0.now ∷ lines_left result.1 }
{
    let end = place_of(text, b'\n');
    if end < text.len() {
        (&text[..end], Some(&text[end + 1..]))
    } else {
        (text, None)
    }
}
