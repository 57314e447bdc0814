//! The property files that the arguments name, from a store, and their cells.
#![tactic(auto)]

mod cells;
mod database;
mod faults;
mod file_store;
mod front;
pub mod laws;
mod loading;
mod memory_store;
mod named_fault;
mod places;
mod readiness;
mod store;
mod task_cells;

pub use cells::{SAMPLE_FILES, read_cells, sample_cells};
pub use database::name_in_database;
pub use faults::{CellsFault, NotReady};
pub use file_store::{FileStore, Opens};
pub use front::read_front;
pub use lbk_ucd::{ClaimCause, Version, check_claim, file_name};
pub use loading::load_cells;
pub use memory_store::MemoryStore;
pub use named_fault::NamedFault;
pub use readiness::{Ready, prepare, read_order};
pub use store::{LoadFault, Store};
pub use task_cells::TaskCells;
