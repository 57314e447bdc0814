//! A run of the program, from its arguments to its ending.

ghost use Rattle.std.specs.Prelude.{◌≡◌, map};
ghost use Rattle.lbk_args.specs.Task.{task_of};
ghost use Rattle.lbk_files.specs.Store.{counts_of};
ghost use Rattle.lbk_files.specs.Taking.{TakesFiles};
ghost use Rattle.lbk_cmd.specs.Devices.{devices_of};
ghost use Rattle.lbk_cmd.specs.declared.ending.Ending.TheVariants.{Done, Refused};
ghost use Rattle.lbk_cmd.specs.declared.ending.RunFault.TheVariants.{Memory};
ghost use Rattle.lbk_cmd.specs.Acts.{AskForNothing, Performs, PerformsAlone, RunsWords, ShowsSamples};
ghost use Rattle.lbk_cmd.specs.Operands.{RunsTexts, standing};

use super::ending::Ending;
use super::engine::show;
use super::operands::{NoTexts, Texts};
use super::performing::perform;
use lbk_args::{DEFAULT_LIMIT, Order};
use lbk_feed::{Sink, Source};
use lbk_files::{Store, prepare, read_order, sample_cells};
use lbk_rules::Profile;
use std::alloc::Global;

/// Runs the engine that the arguments after the program's name ask for, by the property values that they name, over
/// the text of the reader, to the writer. Without arguments it runs `show` over that text with the sample files, in the
/// first profile, with paragraphs of at most 65,536 bytes.
///
/// The result says how the run ended: `Help` and `Usage` for arguments that ask for no engine, and `Refused` with the
/// fault of the step that failed; if that was a property file, nothing was read or written. It loads files only for
/// accepted arguments. `Memory` is returned before any load, if a load runs out of memory, for well-formed files once
/// all four are loaded, or at a text.
///
/// It opens no texts: if arguments name some, `-` is the text of the reader, every other one is refused as one that
/// cannot be opened, and the run ends with `Reported`. `run_over_texts` opens them.
#[tactic(none)]
pub fn run<'a, S: Store, R: Source, W: Sink>(
    alloc: Global,
    words: &'a [&'a str],
    store: &mut S,
    reader: &mut R,
    writer: &mut W,
) -> Ending
    ensures { RunsWords S.Store (map (λ w. w.now) words.entry.now) store.old store.new
        (devices_of R.Source W.Sink reader.old writer.old) (devices_of R.Source W.Sink reader.new writer.new) result
        (λ task. PerformsAlone (S.file store.old) task
        (counts_of (S.load_count store.old) (S.refusal_count store.old))
        (counts_of (S.load_count store.new) (S.refusal_count store.new))
        (devices_of R.Source W.Sink reader.old writer.old) (devices_of R.Source W.Sink reader.new writer.new) result) }
{
    run_over_texts(alloc, words, store, &mut NoTexts, reader, writer)
}

/// As `run`, but also over files: the texts that the arguments name, or that of the reader if they name none. `-` is
/// the text of the reader.
///
/// It reads the texts in order, each once, and writes their results in that order. It reports a refused text and reads
/// the others; the run then ends with `Reported`.
///
/// It parses the arguments once, and passes what they ask for to `texts` before it opens anything.
#[tactic(none)]
pub fn run_over_texts<'a, S: Store, T: Texts<'a>, R: Source, W: Sink>(
    alloc: Global,
    words: &'a [&'a str],
    store: &mut S,
    texts: &mut T,
    reader: &mut R,
    writer: &mut W,
) -> Ending
    ensures runs { RunsWords S.Store (map (λ w. w.now) words.entry.now) store.old store.new
        (devices_of R.Source W.Sink reader.old writer.old) (devices_of R.Source W.Sink reader.new writer.new) result
        (λ task. Performs T.File.Source (S.file store.old) (T.contents texts.old) task
        (counts_of (S.load_count store.old) (S.refusal_count store.old))
        (counts_of (S.load_count store.new) (S.refusal_count store.new))
        (standing (devices_of R.Source W.Sink reader.old writer.old) (T.refused texts.old) Done)
        (standing (devices_of R.Source W.Sink reader.new writer.new) (T.refused texts.new) result)) }
    ensures unopened { AskForNothing (map (λ w. w.now) words.entry.now) → T.refused texts.new ≡ T.refused texts.old }
    ensures texts { T.contents texts.new ≡ T.contents texts.old }
{
    if words.is_empty() {
        return show_samples(alloc, reader, writer);
    }
    match read_order(alloc, words) {
        Ok(order) => {
            texts.begin(&order);
            perform_order(alloc, order, store, texts, reader, writer)
        }
        Err(stop) => Ending::from(stop),
    }
}

/// Prepares the property values of a task, and runs its engine over its texts.
#[tactic(none)]
fn perform_order<'a, S: Store, T: Texts<'a>, R: Source, W: Sink>(
    alloc: Global,
    order: Order<'a>,
    store: &mut S,
    texts: &mut T,
    reader: &mut R,
    writer: &mut W,
) -> Ending
    ensures performs { RunsTexts T.refused T.contents texts.old texts.new
        (devices_of R.Source W.Sink reader.old writer.old) (devices_of R.Source W.Sink reader.new writer.new) result
        (Performs T.File.Source (S.file store.old) (T.contents texts.old) (task_of order.entry)
        (counts_of (S.load_count store.old) (S.refusal_count store.old))
        (counts_of (S.load_count store.new) (S.refusal_count store.new))) }
    ensures takes { TakesFiles S.Store store.old store.new (result ≡ Refused Memory) }
{
    match prepare(alloc, order, store) {
        Ok(ready) => perform(alloc, &ready, texts, reader, writer),
        Err(fault) => Ending::of_files(fault),
    }
}

/// `show` with the sample files.
#[tactic(none)]
fn show_samples<R: Source, W: Sink>(alloc: Global, reader: &mut R, writer: &mut W) -> Ending
    ensures { ShowsSamples
        (devices_of R.Source W.Sink reader.old writer.old) (devices_of R.Source W.Sink reader.new writer.new) result }
{
    match sample_cells(alloc) {
        Ok(cells) => Ending::of_text(show(
            alloc,
            reader,
            writer,
            &cells,
            DEFAULT_LIMIT,
            Profile::First,
        )),
        Err(fault) => Ending::of_files(fault),
    }
}
