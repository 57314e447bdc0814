//! Runs an engine over the texts.

ghost use Rattle.std.specs.Prelude.{◌≡◌, map};
ghost use Rattle.lbk_files.specs.TaskCells.{cell_of_task};
ghost use Rattle.lbk_cmd.specs.Acts.{ChunksEnd, LinesEnd, RunsOver, RunsReady, form_of};
ghost use Rattle.lbk_cmd.specs.Chunk.{limits_of, wanted_of};
ghost use Rattle.lbk_cmd.specs.Devices.{devices_of};
ghost use Rattle.lbk_cmd.specs.Operands.{Reads, ReadsText, RunsTexts, refused_after};
ghost use Rattle.lbk_cmd.specs.Titles.{file_of};

use super::chunked::{Asked, chunk};
use super::ending::{Ending, RunFault};
use super::engine::{Breaking, Lines, TextLines, write_lines};
use super::operands::Texts;
use super::ranges::write_range;
use super::titles::{file_of, has_title, write_title};
use lbk_args::{Engine, Sizes};
use lbk_chunks::Limits;
use lbk_feed::{Sink, Source};
use lbk_files::{LoadFault, Opens, Ready, TaskCells};
use lbk_notation::{Form, replay};
use lbk_rules::CellSource;
use std::alloc::Global;

/// Runs the engine over each of its texts in turn, or over that of the reader if it names none.
pub(crate) fn perform<'a, T: Texts<'a>, R: Source, W: Sink>(
    alloc: Global,
    ready: &Ready<'_>,
    texts: &mut T,
    reader: &mut R,
    writer: &mut W,
) -> Ending
    ensures { RunsTexts T.refused T.contents texts.old texts.new
        (devices_of R.Source W.Sink reader.old writer.old) (devices_of R.Source W.Sink reader.new writer.new) result
        (Reads T.File.Source (T.contents texts.old) (RunsReady ready.now)
        (map (λ name. name.now) ready.now.texts.items)) }
{
    let names = ready.texts.as_slice();
    if names.is_empty() {
        return perform_titled(alloc, ready, "-", reader, writer);
    }
    let mut so_far = Ending::Done;
    for name in names {
        let ending = perform_named(alloc, ready, name, texts, reader, writer);
        if ending.is_last() {
            return ending;
        }
        report(texts, name, &ending);
        so_far = so_far.and(ending);
    }
    so_far
}

/// Reports the text with a name, if it was refused.
fn report<'a, T: Texts<'a>>(texts: &mut T, name: &str, ending: &Ending)
    ensures refused { T.refused texts.new ≡ refused_after (T.refused texts.old) name.now ending.now }
    ensures contents { T.contents texts.new ≡ T.contents texts.old }
{
    if let Ending::Refused(fault) = ending {
        texts.refuse(name, *fault);
    }
}

/// Runs the engine over the text with a name.
#[tactic(none)]
fn perform_named<T: Opens, R: Source, W: Sink>(
    alloc: Global,
    ready: &Ready<'_>,
    name: &str,
    texts: &T,
    reader: &mut R,
    writer: &mut W,
) -> Ending
    ensures { ReadsText T.File.Source (T.contents texts.now) (RunsReady ready.now) name.now
        (devices_of R.Source W.Sink reader.old writer.old) (devices_of R.Source W.Sink reader.new writer.new) result }
{
    if name == "-" {
        return perform_titled(alloc, ready, name, reader, writer);
    }
    match texts.open(name) {
        Ok(mut file) => perform_titled(alloc, ready, name, &mut file, writer),
        Err(LoadFault::Unreadable) => Ending::Refused(RunFault::Open),
        Err(LoadFault::Memory) => Ending::Refused(RunFault::Memory),
    }
}

/// Runs the engine over the text with a name, after the line with the name if it has one.
#[tactic(none)]
fn perform_titled<R: Source, W: Sink>(
    alloc: Global,
    ready: &Ready<'_>,
    name: &str,
    reader: &mut R,
    writer: &mut W,
) -> Ending
    ensures { RunsReady ready.now name.now
        (devices_of R.Source W.Sink reader.old writer.old) (devices_of R.Source W.Sink reader.new writer.new) result }
{
    if !has_title(ready.names, &ready.engine) {
        return perform_one(alloc, ready, name, reader, writer);
    }
    match write_title(alloc, name, writer) {
        Ok(()) => perform_one(alloc, ready, name, reader, writer),
        Err(fault) => Ending::of_text(Err(fault)),
    }
}

/// Runs the engine over the text with a name, or over its range of it.
#[tactic(none)]
fn perform_one<R: Source, W: Sink>(
    alloc: Global,
    ready: &Ready<'_>,
    name: &str,
    reader: &mut R,
    writer: &mut W,
) -> Ending
    ensures { RunsOver ready.now.part ready.now.engine ready.now.sign.now (file_of ready.now.names name.now)
        ready.now.profile (cell_of_task ready.now.cells)
        (devices_of R.Source W.Sink reader.old writer.old) (devices_of R.Source W.Sink reader.new writer.new) result }
{
    match &ready.cells {
        TaskCells::BuiltIn(cells) => perform_by(alloc, ready, name, cells, reader, writer),
        TaskCells::OfFiles(pages) => perform_by(alloc, ready, name, pages, reader, writer),
    }
}

/// Runs the engine over one text, with these cells. It is compiled for each type of cells, so that no character asks which
/// type they have.
#[tactic(none)]
fn perform_by<R: Source, W: Sink, C: CellSource>(
    alloc: Global,
    ready: &Ready<'_>,
    name: &str,
    cells: &C,
    reader: &mut R,
    writer: &mut W,
) -> Ending
    ensures { RunsOver ready.now.part ready.now.engine ready.now.sign.now (file_of ready.now.names name.now)
        ready.now.profile (C.cell_of cells.now)
        (devices_of R.Source W.Sink reader.old writer.old) (devices_of R.Source W.Sink reader.new writer.new) result }
{
    match ready.engine {
        Engine::Mark { limit } => {
            let lines = Lines::Text(TextLines::Signed { sign: ready.sign });
            perform_lines(alloc, lines, limit, ready, cells, reader, writer)
        }
        Engine::Show { limit } => {
            let lines = Lines::Text(TextLines::Shown);
            perform_lines(alloc, lines, limit, ready, cells, reader, writer)
        }
        Engine::Segment { limit } => {
            perform_lines(alloc, Lines::Segmented, limit, ready, cells, reader, writer)
        }
        Engine::Chunk {
            limit,
            sizes,
            texts,
        } => {
            let asked = Asked {
                range: ready.part,
                texts,
                file: file_of(ready.names, name),
            };
            perform_chunk(alloc, asked, sizes, limit, ready, cells, reader, writer)
        }
        Engine::Replay { kinds } => Ending::of_replay(replay(
            alloc,
            reader,
            writer,
            cells,
            form(kinds),
            ready.profile,
        )),
    }
}

/// Writes the chunks of one text, as the task asks for them.
#[tactic(none)]
fn perform_chunk<R: Source, W: Sink, C: CellSource>(
    alloc: Global,
    asked: Asked<'_>,
    sizes: Sizes,
    limit: u32,
    ready: &Ready<'_>,
    cells: &C,
    reader: &mut R,
    writer: &mut W,
) -> Ending
    ensures { ChunksEnd (wanted_of asked.entry) (limits_of sizes) (C.cell_of cells.now) limit ready.now.profile
        (devices_of R.Source W.Sink reader.old writer.old) (devices_of R.Source W.Sink reader.new writer.new) result }
{
    Ending::of_text(chunk(
        alloc,
        limits(sizes),
        asked,
        reader,
        writer,
        cells,
        limit,
        ready.profile,
    ))
}

/// The limits of chunks of these sizes.
fn limits(sizes: Sizes) -> Limits
    ensures { result ≡ limits_of sizes }
{
    Limits {
        most: sizes.most as usize,
        words: sizes.words as usize,
        least: sizes.least as usize,
        overlap: sizes.overlap as usize,
    }
}

/// Writes these lines for the passages of one text, or for those that begin in its range of it.
#[tactic(none)]
fn perform_lines<R: Source, W: Sink, C: CellSource>(
    alloc: Global,
    lines: Lines<'_>,
    limit: u32,
    ready: &Ready<'_>,
    cells: &C,
    reader: &mut R,
    writer: &mut W,
) -> Ending
    ensures { LinesEnd ready.now.part lines.entry (C.cell_of cells.now) limit ready.now.profile
        (devices_of R.Source W.Sink reader.old writer.old) (devices_of R.Source W.Sink reader.new writer.new) result }
{
    let how = Breaking {
        cells,
        limit,
        profile: ready.profile,
    };
    match ready.part {
        None => Ending::of_text(write_lines(alloc, lines, reader, writer, &how)),
        Some(part) => Ending::of_text(write_range(alloc, lines, part, reader, writer, &how)),
    }
}

/// The form of the test notation: with `--kinds` required breaks have their own mark.
fn form(kinds: bool) -> Form
    ensures { result ≡ form_of kinds }
{
    if kinds { Form::Kinds } else { Form::Plain }
}
