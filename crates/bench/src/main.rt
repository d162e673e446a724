//! Does one kind of work again and again, for measurements from outside. The time is taken by whoever starts the program;
//! bench/ has a script for each kind.
#![tactic(auto)]

mod machine;
mod order;
mod replicas;
mod rows;
mod world;

use anyhow::{Context, bail};
use std::alloc::{AllocError, Global};
use std::env;
use std::process::ExitCode;
use std::str::FromStr;
use std::sync::Wait;
use std::thread::Threads;

/// The words of a little work of each kind.
const SAMPLES: [&str; 5] = [
    "rows 1000 2000 100",
    "machine gets 2",
    "replica deliveries 10 20",
    "order log 4 1000",
    "world run 10 2100",
];

/// Reads the word at a place as a number. Where there is none, the error says what the word is.
fn number_at<T: FromStr>(words: &[String], place: usize, what: &'static str) -> anyhow::Result<T>
where
    <T as FromStr>::Err: Drop,
{
    let number = words.get(place).and_then(|word| word.parse().ok());
    number.context(what)
}

/// Does the work of a kind, the first word, as the further words say.
fn run<R: Threads + Wait + Sync>(
    rt: &HostRuntime,
    threads: &R,
    words: &[String],
) -> anyhow::Result<()> {
    match words.first().map(|word| word.as_str()) {
        Some("rows") => rows::run(rt, words),
        Some("machine") => machine::run(rt, words),
        Some("replica") => replicas::run(rt, words),
        Some("order") => order::run(rt, threads, words),
        Some("world") => world::run(rt, words),
        _ => bail!("the first word is rows, machine, replica, order, world, or samples"),
    }
}

/// Returns the words of a line.
fn words_of(alloc: Global, line: &str) -> Result<Vec<String>, AllocError> {
    let mut words = Vec::new(alloc);
    for word in line.split(' ') {
        words.push(String::from_str(alloc, word)?)?;
    }
    Ok(words)
}

/// Does a little work of each kind.
fn run_samples<R: Threads + Wait + Sync>(rt: &HostRuntime, threads: &R) -> anyhow::Result<()> {
    for line in SAMPLES {
        run(rt, threads, &words_of(rt.alloc(), line)?)?;
    }
    Ok(())
}

/// Does the work that the words of the command line name.
fn run_as_asked<R: Threads + Wait + Sync>(rt: &HostRuntime, threads: &R) -> anyhow::Result<()> {
    let words: Vec<String> = env::args(rt)?.collect(rt.alloc())?;
    let words = words.get(1..).unwrap_or(&[]);
    if words.first().is_some_and(|word| word.as_str() == "samples") {
        return run_samples(rt, threads);
    }
    run(rt, threads, words)
}

fn main(rt: HostRuntime) -> ExitCode {
    match run_as_asked(&rt, &rt) {
        Ok(()) => ExitCode::SUCCESS,
        Err(error) => {
            let _ = eprintln!(rt; "bench: {error}");
            ExitCode::FAILURE
        }
    }
}
