//! Calls for tests, without their contracts. A test only proves that it is safe and returns, so it needs no facts about
//! them; without these facts a check takes a fraction of the time.

use lbk_rules::{
    Cell, CellSource, LateMachine, Machine, Out, Profile, Stepper, Verdict, decide, decide_in,
};
use std::alloc::Global;
use std::fmt::Debug;
use std::process::Abort;

/// How texts are decided.
#[derive(Drop)]
pub struct Setting<'a, C> {
    pub alloc: Global,
    pub source: &'a C,
    pub profile: Profile,
}

/// The value of a call that has to succeed. A body with `?` has a way out at each call, which releases all that the
/// body owns; a body with this has none, and its check takes a fraction of the time.
pub fn must<T, E: Debug + Drop>(rt: &impl Abort, answer: Result<T, E>) -> T {
    answer.expect(rt, "a call failed")
}

/// Compares a result with the expected one.
pub fn same<T: PartialEq + Debug, D: Debug>(rt: &impl Abort, found: &T, want: &T, of: &D) {
    assert!(rt; found == want, "{found:?} in place of {want:?}: {of:?}");
}

/// The verdict of the evaluator at a position. In the first profile the plain evaluator has to return the same.
pub fn decided(rt: &impl Abort, profile: Profile, cells: &[Cell], k: usize) -> Verdict {
    assert!(rt; k <= cells.len());
    let verdict = decide_in(profile, cells, k);
    if profile == Profile::First {
        same(rt, &decide(cells, k), &verdict, &k);
    }
    verdict
}

pub fn step(machine: &mut Machine, cell: Cell) -> Verdict {
    machine.step(cell)
}

pub fn start_late(profile: Profile) -> LateMachine {
    LateMachine::start(profile)
}

/// Steps once more, after `taken` cells.
pub fn late_step(rt: &impl Abort, machine: &mut LateMachine, taken: u64, cell: Cell) -> Out {
    assert!(rt; machine.steps() == taken && taken < u64::MAX);
    machine.step(cell)
}

pub fn stepper<C: CellSource>(source: &C, profile: Profile) -> Stepper<'_, C> {
    Stepper::start(source, profile)
}

pub fn step_over<C: CellSource>(stepper: &mut Stepper<'_, C>, c: char) -> Out {
    stepper.step(c)
}
