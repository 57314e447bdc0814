//! Times the layers, and prints the results.

use crate::layers::LAYERS;
use crate::material::{Material, front_of};
use crate::property_files::files_of;
use anyhow::{Result, bail};
use lbk_ucd::Tables;
use std::io;
use std::time::{Duration, Instant};
use test_support::calls::{pages_of, tables_of};

/// How often each layer runs. The layers take turns, so that other load on the machine slows all of them, and the best
/// run of each counts.
const ROUNDS: u32 = 9;

/// The time of the best run of a layer, and its count.
type Best = (Duration, u64);

/// Reads four property files and a text from standard input. Prints for each layer its millions of bytes a second, the
/// ratio to `Machine`, and its count.
pub fn print(rt: &HostRuntime, name: &str) -> Result<()> {
    let input = io::read_to_string(rt.alloc(), rt.stdin())?;
    let (files, text) = files_of(input.as_str());
    match tables_of(rt.alloc(), files) {
        Ok(tables) => print_by_tables(rt, name, &tables, front_of(text)),
        Err(_) => bail!("a property file is refused"),
    }
}

fn print_by_tables(rt: &HostRuntime, name: &str, tables: &Tables, text: &str) -> Result<()> {
    let cells = pages_of(rt.alloc(), tables)?;
    let material = Material {
        tables,
        cells: &cells,
        text,
    };
    print_layers(rt, name, &material)
}

fn print_layers(rt: &HostRuntime, name: &str, material: &Material<'_>) -> Result<()> {
    let best = best_of(rt, material)?;
    let bytes = material.text.len();
    println!(rt; "{name}: {bytes} bytes, the best of {ROUNDS} runs each")?;
    print_rates(rt, bytes, &best)
}

/// Prints the rate of each layer, and its ratio to that of the first.
fn print_rates(rt: &HostRuntime, bytes: usize, best: &[Best]) -> Result<()> {
    let mut first = 0;
    for ((_, name), (time, count)) in LAYERS.iter().zip(best.iter()) {
        let rate = rate(bytes, *time);
        if first == 0 {
            first = rate;
        }
        print_rate(rt, name, (rate, first), *count)?;
    }
    Ok(())
}

fn print_rate(rt: &HostRuntime, name: &str, (rate, first): (u128, u128), count: u64) -> Result<()> {
    let times = rate.saturating_mul(100) / first.max(1);
    println!(rt;
        "{name:<24}{:>8}.{} MB/s{:>6}.{:02}{count:>14}",
        rate / 10,
        rate % 10,
        times / 100,
        times % 100
    )?;
    Ok(())
}

/// The best run of each layer.
fn best_of(rt: &HostRuntime, material: &Material<'_>) -> Result<[Best; LAYERS.len()]> {
    let mut best = [(Duration::MAX, 0); LAYERS.len()];
    for _ in 0..ROUNDS {
        for (k, (layer, _)) in LAYERS.iter().enumerate() {
            let start = Instant::now(rt)?;
            let count = layer.run(rt.alloc(), material)?;
            let time = start.elapsed(rt)?;
            if time < best[k].0 {
                best[k] = (time, count);
            }
        }
    }
    Ok(best)
}

/// Tenths of millions of bytes a second.
fn rate(bytes: usize, time: Duration) -> u128 {
    (bytes as u128) * 10_000 / time.as_nanos().max(1)
}
