//! Arguments: `parse`, `prepare`, and `run` over files in memory.

use crate::counting::{begin, end};
use crate::digest;
use crate::inputs::{Text, sink_of, source_of};
use crate::told::{answer_told, cells_told, fault_told, told};
use lbk_args::{Order, WordsFault};
use lbk_cmd::{Ending, MemoryTexts, run_over_texts};
use lbk_feed::Source;
use lbk_feed::devices::{MemorySink, MemorySource};
use lbk_files::{LoadFault, MemoryStore, NotReady, Ready, Store, read_front, read_order};
use std::alloc::{AllocError, Global};
use test_support::property_files::NAMED;

/// The arguments after the program's name.
pub type Words = &'static [&'static str];

pub fn parse(alloc: Global, words: Words) -> Result<String, AllocError> {
    begin(alloc);
    let answer = parsed(alloc, words);
    end(alloc);
    told(alloc, &answer)
}

/// `lbk_args::parse`, without its contract.
fn parsed(alloc: Global, words: Words) -> Result<Order<'static>, WordsFault> {
    lbk_args::parse(alloc, words)
}

pub fn front(alloc: Global, bytes: Text, most: u16) -> Result<String, AllocError> {
    let bytes = bytes.bytes(alloc)?;
    front_of(alloc, &bytes, usize::from(most))
}

fn front_of(alloc: Global, bytes: &[u8], most: usize) -> Result<String, AllocError> {
    let mut source = MemorySource::cut(bytes, &[5000]);
    begin(alloc);
    let answer = read(alloc, &mut source, most);
    end(alloc);
    match answer {
        Ok(front) => front_told(alloc, &front, source.reads()),
        Err(fault) => fault_told(alloc, &fault),
    }
}

/// `read_front`, without its contract.
fn read(alloc: Global, source: &mut MemorySource<'_>, most: usize) -> Result<Vec<u8>, LoadFault> {
    read_front(alloc, source, most)
}

fn front_told(alloc: Global, front: &[u8], reads: u64) -> Result<String, AllocError> {
    let count = front.len();
    let digest = digest::of(front);
    format!(in alloc; "Ok: {count} bytes after {reads} reads, digest {digest:016x}\n")
}

fn store() -> MemoryStore<'static> {
    MemoryStore::new(&NAMED)
}

pub fn load(alloc: Global, name: &str, most: u16) -> Result<String, AllocError> {
    let mut store = store();
    begin(alloc);
    let answer = store.load(alloc, name, usize::from(most));
    end(alloc);
    told(alloc, &answer)
}

pub fn prepared(alloc: Global, words: Words) -> Result<String, AllocError> {
    let mut store = store();
    begin(alloc);
    let answer = ready(alloc, words, &mut store);
    end(alloc);
    match answer {
        Ok(ready) => ready_told(alloc, &ready),
        Err(stop) => fault_told(alloc, &stop),
    }
}

/// Reads the arguments, and the files that they name.
fn ready(
    alloc: Global,
    words: Words,
    store: &mut MemoryStore<'_>,
) -> Result<Ready<'static>, NotReady> {
    let order = match read_order(alloc, words) {
        Ok(order) => order,
        Err(stop) => return Err(stop),
    };
    match lbk_files::prepare(alloc, order, store) {
        Ok(ready) => Ok(ready),
        Err(fault) => Err(NotReady::Refused(fault)),
    }
}

fn ready_told(alloc: Global, ready: &Ready<'_>) -> Result<String, AllocError> {
    let engine = ready.engine;
    let profile = ready.profile;
    let cells = cells_told(alloc, &ready.cells)?;
    format!(in alloc; "{engine:?} {profile:?} {cells}")
}

pub fn run(alloc: Global, words: Words, input: Text) -> Result<String, AllocError> {
    let bytes = input.bytes(alloc)?;
    run_on(alloc, words, &bytes)
}

fn run_on(alloc: Global, words: Words, bytes: &[u8]) -> Result<String, AllocError> {
    let mut sink = sink_of(alloc)?;
    let mut source = source_of(bytes);
    let mut texts = MemoryTexts::new(alloc, store());
    begin(alloc);
    let ending = ending_of(alloc, words, &mut texts, &mut source, &mut sink);
    end(alloc);
    answer_told(alloc, &ending, sink.bytes())
}

/// `run_over_texts` over files in memory, without its contract.
fn ending_of(
    alloc: Global,
    words: Words,
    texts: &mut MemoryTexts<'static>,
    source: &mut MemorySource<'_>,
    sink: &mut MemorySink,
) -> Ending {
    run_over_texts(alloc, words, &mut store(), texts, source, sink)
}
