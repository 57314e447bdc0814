//! Compares whole test files with the rules.

ghost use Rattle.std.specs.Prelude.{◌≡◌, ◌+◌, ◌<◌, ◌≤◌, ℕ, [], ◌∷◌, length, take, IsTrue, IfSome, IfOk};
ghost use Rattle.std.specs.Prelude.{IfErr, OnOk};
ghost use Rattle.std.specs.Io.KnownBytes.{Appends, IsAtEnd};
ghost use Rattle.lbk_notation.specs.ReplayState.{Ends, HasRead, OnlyWrites, UsesWriter, is_read_fault_of};
ghost use Rattle.lbk_notation.specs.Replay.{IsReplayRun, IsReplayed, TellsWrites, UsesDevices, is_read_fault};
ghost use Rattle.lbk_notation.specs.Stream.{longest_stream};
ghost use Rattle.lbk_feed.specs.Runs.{Ran};

use super::findings::{ReplayFault, Report};
use super::marks::Form;
use super::replay_state::ReplayState;
use super::replayer::Replayer;
use lbk_feed::{Sink, Source, write_all};
use lbk_rules::{CellSource, Profile};
use std::alloc::Global;

const BLOCK: usize = 4096;

/// Compares each line of a test file with the rules of the profile (UAX #14, section 6). It writes a line for each one
/// that differs or is refused, in the order of the file, and the counts last:
///
/// - `D line position file rules rule`: the first position that differs, in scalars from 0, the marks of the file and
///   of the rules there in this form, and the number of the rule;
/// - `R line place`: it is not a line of the notation, from that byte on, counted from 0; `R line long`: it has more
///   than 268,435,456 bytes;
/// - `T lines agreed differed refused`: none of these counts blank lines and comments.
///
/// Lines are numbered from 1, including blank ones and comments. They end at LF; the last may lack it. A leading byte
/// order mark is skipped. Replay holds one line at a time, and none that is too long.
///
/// After `Read` the output is that of the lines whose LF was read, without counts; after `StreamTooLong` that of the
/// lines that end within the first 1,073,741,824 bytes; after `Write` a prefix of the output; after `Memory` a prefix
/// of whole lines. In the last two cases it has the output of all lines that end in reads before the last.
///
/// ```rust
/// let mut sink = MemorySink::new(alloc, ROOM)?;
/// let report = replay(alloc, source, &mut sink, cells, form, profile);
/// ```
pub fn replay<R: Source, W: Sink, C: CellSource>(
    alloc: Global,
    reader: &mut R,
    writer: &mut W,
    cells: &C,
    form: Form,
    profile: Profile,
) -> Result<Report, ReplayFault>
    // The output, if the reader's bytes are known.
    ensures replayed { IfOk result (λ report. IfSome (R.unread reader.old) (λ input.
        IsReplayed (C.cell_of cells.now) form profile input report (W.written writer.old) (W.written writer.new))) }

    // The output for the bytes that were read, whatever the result.
    ensures run { Ran (is_read_fault result) (R.unread reader.old) (R.unread reader.new) (W.written writer.old)
        (W.written writer.new)
        (IsReplayRun (C.cell_of cells.now) form profile (R.reads_made reader.old) (R.reads_made reader.new)
        (IsTrue (R.has_ended reader.new) × IsAtEnd (R.unread reader.new)) result) }

    // When a device's fault is returned, and how much is read.
    ensures devices { UsesDevices R.Source W.Sink reader.old reader.new writer.old writer.new result }
{
    let replayer = Replayer {
        cells,
        form,
        profile,
    };
    let progress = read_all(alloc, reader, writer, &replayer)?;
    finish(alloc, writer, &replayer, progress)
}

/// Reads the file to its end, and writes the output of its ended lines.
fn read_all<R: Source, W: Sink, C: CellSource>(
    alloc: Global,
    reader: &mut R,
    writer: &mut W,
    replayer: &Replayer<C>,
) -> Result<ReplayState, ReplayFault>
    ensures run { Ran (is_read_fault_of result) (R.unread reader.old) (R.unread reader.new) (W.written writer.old)
        (W.written writer.new)
        (HasRead (C.cell_of replayer.now.cells.now) replayer.now.form replayer.now.profile
        (R.reads_made reader.old) (R.reads_made reader.new) result) }
    ensures devices { UsesDevices R.Source W.Sink reader.old reader.new writer.old writer.new result }
{
    let mut progress = ReplayState::new(alloc);
    let mut block = [0u8; BLOCK];
    loop {
        let Ok(count) = reader.read(&mut block) else {
            return Err(ReplayFault::Read);
        };
        if count == 0 {
            return Ok(progress);
        }
        let counted = count.min(progress.room());
        take_all(alloc, writer, replayer, &mut progress, &block[..counted])?;
        if counted < count {
            return Err(ReplayFault::StreamTooLong);
        }
    }
}

/// Takes bytes one after another, and writes the output of each line that they end.
fn take_all<W: Sink, C: CellSource>(
    alloc: Global,
    writer: &mut W,
    replayer: &Replayer<C>,
    progress: &mut ReplayState,
    bytes: &[u8],
) -> Result<(), ReplayFault>
    requires { progress.old.taken + length bytes.now ≤ longest_stream }
    ensures writes { UsesWriter W.Sink (C.cell_of replayer.now.cells.now) replayer.now.form replayer.now.profile
        progress.old progress.new bytes.now writer.old writer.new result }
    ensures taken { OnOk result (progress.new.taken ≡ progress.old.taken + length bytes.now) }
{
    for byte in bytes {
        take(alloc, writer, replayer, progress, *byte)?;
    }
    Ok(())
}

/// Takes a byte, and writes the output of the line that it ends.
fn take<W: Sink, C: CellSource>(
    alloc: Global,
    writer: &mut W,
    replayer: &Replayer<C>,
    progress: &mut ReplayState,
    byte: u8,
) -> Result<(), ReplayFault>
    requires { progress.old.taken < longest_stream }
    ensures writes { UsesWriter W.Sink (C.cell_of replayer.now.cells.now) replayer.now.form replayer.now.profile
        progress.old progress.new (byte ∷ []) writer.old writer.new result }
    ensures taken { progress.new.taken ≡ progress.old.taken + 1 }
{
    if byte != b'\n' {
        progress.add(byte)?;
        return Ok(());
    }
    progress.end_line(alloc, replayer)?;
    put(writer, progress.text())
}

/// Ends the file: writes the output of its last line, and the counts.
fn finish<W: Sink, C: CellSource>(
    alloc: Global,
    writer: &mut W,
    replayer: &Replayer<C>,
    progress: ReplayState,
) -> Result<Report, ReplayFault>
    ensures ends { Ends (C.cell_of replayer.now.cells.now) replayer.now.form replayer.now.profile progress
        (W.written writer.old) (W.written writer.new) result }
    ensures faults { OnlyWrites (W.failure_count writer.old) (W.failure_count writer.new) result }
{
    let mut progress = progress;
    progress.end_last(alloc, replayer)?;
    put(writer, progress.text())?;
    progress.total()?;
    put(writer, progress.text())?;
    Ok(progress.report())
}

/// Writes all of `bytes`.
fn put<W: Sink>(writer: &mut W, bytes: &[u8]) -> Result<(), ReplayFault>
    ensures ok { OnOk result (Appends (W.written writer.old) (W.written writer.new) bytes.now) }
    ensures front { (n : ℕ) × Appends (W.written writer.old) (W.written writer.new) (take n bytes.now) }
    ensures only { IfErr result (λ fault. fault ≡ ReplayFault.Write) }
    ensures writes { TellsWrites (W.failure_count writer.old) (W.failure_count writer.new) result }
{
    match write_all(writer, bytes) {
        Ok(()) => Ok(()),
        Err(_) => Err(ReplayFault::Write),
    }
}
