//! Loads the four files that arguments name, in order, and reads them.

ghost use Rattle.lbk_files.specs.Named.{files_of, told_of};
ghost use Rattle.lbk_files.specs.Places.{LoadsOne, files_at, told_at};
ghost use Rattle.lbk_files.specs.Taking.{ReadsFiles};
ghost use Rattle.lbk_args.specs.Task.{files_of_names, given};

use super::cells::read_cells;
use super::faults::CellsFault;
use super::places::{Place, Places, places_of};
use super::store::{LoadFault, Store};
use lbk_args::FileNames;
use lbk_rules::CellPages;
use lbk_ucd::{Files, LONGEST_FILE, Which, check_claim};
use std::alloc::Global;

/// The cells of the named files: they are loaded in the order of `Files`, then read.
///
/// A file in a folder has to be, byte for byte, the one that Unicode 15.0.0 published (`check_claim`).
///
/// `Load` names the first file that cannot be read, and `Claim` the first one of a folder that is not the published
/// one. `Tables` is as in `read_cells`. `Memory` is returned before any load, for the paths of the files in a folder;
/// if a load runs out of memory, and then there is no further load; or for well-formed files, once all four are loaded.
pub fn load_cells<S: Store>(
    alloc: Global,
    names: &FileNames<'_>,
    store: &mut S,
) -> Result<CellPages, CellsFault>
    ensures { ReadsFiles S.Store store.old store.new (files_of (S.file store.old) (files_of_names names.now)) result }
{
    // All names are made before the first load.
    match places_of(alloc, names) {
        Ok(places) => load_places(alloc, &places, store),
        Err(_) => Err(CellsFault::Memory),
    }
}

/// The cells of the files with these names.
fn load_places<S: Store>(
    alloc: Global,
    places: &Places<'_>,
    store: &mut S,
) -> Result<CellPages, CellsFault>
    ensures { ReadsFiles S.Store store.old store.new (files_at (S.file store.old) places.now) result }
{
    let line_break = load_file(alloc, &places.line_break, store, Which::LineBreak)?;
    let east_asian = load_file(alloc, &places.east_asian, store, Which::EastAsianWidth)?;
    let category = load_file(alloc, &places.category, store, Which::Category)?;
    let emoji = load_file(alloc, &places.emoji, store, Which::Emoji)?;
    read_cells(
        alloc,
        Files {
            line_break: &line_break,
            east_asian: &east_asian,
            category: &category,
            emoji: &emoji,
        },
    )
}

/// The bytes of the file with a name; those of a file in a folder must be the published ones.
fn load_file<S: Store>(
    alloc: Global,
    place: &Place<'_>,
    store: &mut S,
    which: Which,
) -> Result<Vec<u8>, CellsFault>
    ensures { LoadsOne S.Store store.old store.new which (told_at (S.file store.old) place.now) result }
{
    match place {
        Place::Given(name) => load_named(alloc, name, store, which),
        Place::InFolder(name) => {
            let bytes = load_named(alloc, name.as_str(), store, which)?;
            match check_claim(which, &bytes) {
                Ok(()) => Ok(bytes),
                Err(cause) => Err(CellsFault::Claim(which, cause)),
            }
        }
    }
}

/// The bytes of the file with this name.
fn load_named<S: Store>(
    alloc: Global,
    name: &str,
    store: &mut S,
    which: Which,
) -> Result<Vec<u8>, CellsFault>
    ensures { LoadsOne S.Store store.old store.new which (told_of (S.file store.old) which (given name.now)) result }
{
    // Loads one more byte, so that a longer file is refused as too long.
    match store.load(alloc, name, LONGEST_FILE) {
        Ok(bytes) => Ok(bytes),
        Err(LoadFault::Unreadable) => Err(CellsFault::Load(which)),
        Err(LoadFault::Memory) => Err(CellsFault::Memory),
    }
}
