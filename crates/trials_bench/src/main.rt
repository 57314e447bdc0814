//! `trials_bench`: runs each call that can run out of memory or allocates nothing on its own input; measures each
//! layer.
//!
//! `trials_bench ROW PROFILE` runs a row of the table and writes the result of its call. Without arguments it runs all
//! rows, each after its name. `scripts/check refused-allocations` runs it, refuses the allocations in turn, and
//! compares. `trials_bench layers NAME` measures the layers for `scripts/bench`; standard input has four property files
//! and a text of this name, each except the last followed by a zero byte. `trials_bench cells` compares the built-in
//! cells with those of such files for `scripts/check published-files`.
#![tactic(auto)]

mod breaks;
mod cells;
mod commands;
mod counting;
mod devices;
mod digest;
mod dropped;
mod engines;
mod inputs;
mod layers;
mod lines;
mod material;
mod on_text;
mod passages;
mod property_files;
mod pushes;
mod quiet;
mod rows;
mod samples;
mod tables;
mod timing;
mod told;
mod trial;
mod verdicts;

use anyhow::{Result, bail};
use lbk_rules::Profile;
use on_text::OnText;
use rows::{calls, others, trial_of};
use samples::sample_of;
use std::env;
use std::process::ExitCode;
use trial::Trial;

const USAGE: u8 = 2;

/// How much of a result is shown in a run of all rows.
const SHOWN: usize = 5000;

fn main(rt: HostRuntime) -> Result<ExitCode> {
    let words: Vec<String> = env::args(&rt)?.skip(1).collect(rt.alloc())?;
    match words.as_slice() {
        [] => run_all(&rt),
        [name] => run_or_compare(&rt, name.as_str()),
        [first, second] => run_two(&rt, first.as_str(), second.as_str()),
        _ => usage(&rt),
    }
}

/// By one argument.
fn run_or_compare(rt: &HostRuntime, name: &str) -> Result<ExitCode> {
    if name != "cells" {
        return run_one(rt, name, Profile::First);
    }
    cells::print(rt)?;
    Ok(ExitCode::SUCCESS)
}

/// By two arguments.
fn run_two(rt: &HostRuntime, first: &str, second: &str) -> Result<ExitCode> {
    match (first, second) {
        ("layers", name) => measure(rt, name),
        (name, "2") => run_one(rt, name, Profile::Second),
        _ => usage(rt),
    }
}

fn usage(rt: &HostRuntime) -> Result<ExitCode> {
    eprintln!(rt; "usage: trials_bench [ROW [2] | layers NAME | cells]")?;
    Ok(ExitCode::from(USAGE))
}

/// Times the layers over a text with this name.
fn measure(rt: &HostRuntime, name: &str) -> Result<ExitCode> {
    timing::print(rt, name)?;
    Ok(ExitCode::SUCCESS)
}

/// Runs the row with this name, and writes the whole result.
fn run_one(rt: &HostRuntime, name: &str, profile: Profile) -> Result<ExitCode> {
    let Some(trial) = trial_of(name) else {
        return usage(rt);
    };
    let told = trial.run(rt.alloc(), profile)?;
    print!(rt; "{told}")?;
    Ok(ExitCode::SUCCESS)
}

/// Runs all rows, in both profiles if it matters, and writes short results, and a digest of the others.
fn run_all(rt: &HostRuntime) -> Result<ExitCode> {
    for (name, trial) in others() {
        run_row(rt, name, *trial)?;
    }
    for (call, on_text, texts) in calls() {
        run_call(rt, call, *on_text, texts)?;
    }
    Ok(ExitCode::SUCCESS)
}

/// Runs a call on these texts.
fn run_call(rt: &HostRuntime, call: &str, on_text: OnText, texts: &str) -> Result<()> {
    for text in texts.split(' ') {
        let Some(sample) = sample_of(text) else {
            bail!("there is no text {text}");
        };
        let name = format!(in rt.alloc(); "{call}/{text}")?;
        run_row(rt, name.as_str(), Trial::OnText(on_text, sample))?;
    }
    Ok(())
}

fn run_row(rt: &HostRuntime, name: &str, trial: Trial) -> Result<()> {
    println!(rt; "row {name}")?;
    run_shortly(rt, trial, Profile::First)?;
    if trial.has_profile() {
        println!(rt; "row {name} 2")?;
        run_shortly(rt, trial, Profile::Second)?;
    }
    Ok(())
}

fn run_shortly(rt: &HostRuntime, trial: Trial, profile: Profile) -> Result<()> {
    let told = trial.run(rt.alloc(), profile)?;
    show(rt, told.as_str())
}

/// Shows a result, or its length and a digest of it.
fn show(rt: &HostRuntime, told: &str) -> Result<()> {
    if told.len() <= SHOWN {
        println!(rt; "{}", told.strip_suffix('\n').unwrap_or(told))?;
        return Ok(());
    }
    let digest = digest::of(told.as_bytes());
    let count = told.len();
    println!(rt; "{count} bytes, digest {digest:016x}")?;
    Ok(())
}
