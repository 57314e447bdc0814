//! Calls on lists of cells, which allocate nothing.

use crate::counting::{begin, end};
use crate::digest::Digest;
use crate::inputs::{Input, verdicts_of};
use crate::told::digest_told;
use lbk_rules::{
    Cell, LateMachine, Machine, Out, Profile, Verdict, decide, decide_all, decide_all_in, decide_in,
};
use std::alloc::{AllocError, Global};

/// `decide`, `decide_in`, `decide_all`, `decide_all_in`.
pub fn decided(alloc: Global, input: &Input<'_>) -> Result<String, AllocError> {
    let list = input.cell_list(alloc)?;
    decided_told(alloc, &list, input.profile)
}

fn decided_told(alloc: Global, list: &[Cell], profile: Profile) -> Result<String, AllocError> {
    let mut first = verdicts_of(alloc, list, profile)?;
    let mut chosen = verdicts_of(alloc, list, profile)?;
    let mut digest = Digest::new();
    begin(alloc);
    let answers = decide_each_way(&mut digest, list, profile, (&mut first, &mut chosen));
    end(alloc);
    add_verdicts(&mut digest, &first);
    add_verdicts(&mut digest, &chosen);
    let digest = digest.value();
    format!(in alloc; "{answers} answers, digest {digest:016x}\n")
}

/// How many verdicts there are of the profile, if there is room for one at each position.
fn decide_each_way(
    digest: &mut Digest,
    list: &[Cell],
    profile: Profile,
    (first, chosen): (&mut [Verdict], &mut [Verdict]),
) -> usize {
    if first.len() != list.len() + 1 || chosen.len() != list.len() + 1 {
        return 0;
    }
    add_decided(digest, list, profile);
    decide_all(list, first);
    decide_all_in(profile, list, chosen)
}

fn add_decided(digest: &mut Digest, list: &[Cell], profile: Profile) {
    for k in 0..list.len() + 1 {
        add_verdict(digest, decide(list, k));
        add_verdict(digest, decide_in(profile, list, k));
    }
}

fn add_verdicts(digest: &mut Digest, verdicts: &[Verdict]) {
    for verdict in verdicts {
        add_verdict(digest, *verdict);
    }
}

pub fn add_verdict(digest: &mut Digest, verdict: Verdict) {
    digest.add_verdict(verdict.kind, verdict.rule);
}

/// Each call of `Machine` and `LateMachine`, and `label`.
pub fn machines(alloc: Global, input: &Input<'_>) -> Result<String, AllocError> {
    let list = input.cell_list(alloc)?;
    let mut digest = Digest::new();
    begin(alloc);
    step_machine(&mut digest, &list);
    step_late_machine(&mut digest, &list, input.profile);
    end(alloc);
    digest_told(alloc, digest)
}

fn step_machine(digest: &mut Digest, list: &[Cell]) {
    let mut machine = Machine::start();
    for cell in list {
        add_verdict(digest, machine.step(*cell));
    }
    add_verdict(digest, machine.finish());
}

fn step_late_machine(digest: &mut Digest, list: &[Cell], profile: Profile) {
    let mut machine = LateMachine::start(profile);
    for cell in list {
        if machine.steps() == u64::MAX {
            break;
        }
        add_out(digest, machine.step(*cell));
    }
    let ended = machine.finish();
    add_late(digest, ended.late);
    add_verdict(digest, ended.end);
    digest.add(machine.steps());
}

pub fn add_out(digest: &mut Digest, out: Out) {
    add_late(digest, out.late);
    if let Some(verdict) = out.now {
        add_verdict(digest, verdict);
    }
}

pub fn add_late(digest: &mut Digest, late: Option<(u64, Verdict)>) {
    if let Some((position, verdict)) = late {
        digest.add(position);
        add_verdict(digest, verdict);
    }
}
