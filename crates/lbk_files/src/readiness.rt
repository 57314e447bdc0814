//! From the arguments to an engine with its cells.

ghost use Rattle.std.specs.Prelude.{◌≡◌, Some, Err, MatchResult, map};
ghost use Rattle.lbk_args.specs.Accepted.{AreAccepted};
ghost use Rattle.lbk_args.specs.PlainWords.{IsPlainFor};
ghost use Rattle.lbk_args.specs.Task.{Task, task_by, task_of, values_of};
ghost use Rattle.lbk_files.specs.PropertyValues.{AreCellsBy, IsValuesFault};
ghost use Rattle.lbk_files.specs.Ready.{IsReadyFor, IsStoppedByWords, IsWantOfMemory};
ghost use Rattle.lbk_files.specs.Store.{counts_of};
ghost use Rattle.lbk_files.specs.Taking.{TakesFiles};
ghost use Rattle.lbk_files.specs.TaskCells.{cell_of_task};

use super::faults::{CellsFault, NotReady};
use super::loading::load_cells;
use super::store::Store;
use super::task_cells::TaskCells;
use lbk_args::{Engine, Order, Part, PropertyValues, WordsFault, parse};
use lbk_rules::{Profile, UnicodeCells};
use std::alloc::Global;

/// An engine with its options, the profile, the range of passages, the sign of `mark`, whether to write names, the
/// cells, and the names of the texts.
#[derive(Drop)]
pub struct Ready<'a> {
    pub engine: Engine,
    pub profile: Profile,
    pub part: Option<Part>,
    pub sign: &'a str,
    pub names: bool,
    pub cells: TaskCells,
    pub texts: Vec<&'a str>,
}

/// Parses the arguments.
///
/// Returns `Help` or `Usage` for arguments without a task, and `Refused` if an allocation fails.
pub fn read_order<'a>(alloc: Global, words: &'a [&'a str]) -> Result<Order<'a>, NotReady>
    ensures plain { (task : Task) → IsPlainFor task (map (λ w. w.now) words.entry.now)
        → MatchResult result (λ order. task_of order ≡ task) IsWantOfMemory }
    ensures accepted { (task : Task) → AreAccepted (map (λ w. w.now) words.entry.now)
        → task_by (map (λ w. w.now) words.entry.now) ≡ Some task
        → MatchResult result (λ order. task_of order ≡ task) IsWantOfMemory }
    ensures others { ¬ (AreAccepted (map (λ w. w.now) words.entry.now))
        → MatchResult result (λ order. ⊥) (IsStoppedByWords (map (λ w. w.now) words.entry.now)) }
{
    match parse(alloc, words) {
        Ok(order) => Ok(order),
        Err(WordsFault::Help { text }) => Err(NotReady::Help { text }),
        Err(WordsFault::Usage { text }) => Err(NotReady::Usage { text }),
        Err(WordsFault::Memory) => Err(NotReady::Refused(CellsFault::Memory)),
    }
}

/// Prepares a task: loads the files that it names, and reads them, or takes the built-in property values and loads
/// nothing.
///
/// The error is that of the first step that fails: `Memory` before any load, in a load, or for well-formed files once
/// all four are loaded.
pub fn prepare<'a, S: Store>(
    alloc: Global,
    order: Order<'a>,
    store: &mut S,
) -> Result<Ready<'a>, CellsFault>
    ensures made { MatchResult result (IsReadyFor (S.file store.old) (task_of order.entry)
        (counts_of (S.load_count store.old) (S.refusal_count store.old))
        (counts_of (S.load_count store.new) (S.refusal_count store.new)))
        (IsValuesFault (S.file store.old) (values_of order.entry.values)
        (counts_of (S.load_count store.old) (S.refusal_count store.old))
        (counts_of (S.load_count store.new) (S.refusal_count store.new))) }
    ensures takes { TakesFiles S.Store store.old store.new (result ≡ Err CellsFault.Memory) }
{
    let cells = task_cells(alloc, &order.values, store)?;
    Ok(Ready {
        engine: order.engine,
        profile: order.profile,
        part: order.part,
        sign: order.sign,
        names: order.names,
        cells,
        texts: order.texts,
    })
}

/// The cells of these property values.
fn task_cells<S: Store>(
    alloc: Global,
    values: &PropertyValues<'_>,
    store: &mut S,
) -> Result<TaskCells, CellsFault>
    ensures made { MatchResult result (λ cells. AreCellsBy (S.file store.old) (values_of values.now)
        (counts_of (S.load_count store.old) (S.refusal_count store.old))
        (counts_of (S.load_count store.new) (S.refusal_count store.new)) (cell_of_task cells))
        (IsValuesFault (S.file store.old) (values_of values.now)
        (counts_of (S.load_count store.old) (S.refusal_count store.old))
        (counts_of (S.load_count store.new) (S.refusal_count store.new))) }
    ensures takes { TakesFiles S.Store store.old store.new (result ≡ Err CellsFault.Memory) }
{
    match values {
        PropertyValues::BuiltIn => Ok(TaskCells::BuiltIn(UnicodeCells)),
        PropertyValues::Files(names) => match load_cells(alloc, names, store) {
            Ok(pages) => Ok(TaskCells::OfFiles(pages)),
            Err(fault) => Err(fault),
        },
    }
}
