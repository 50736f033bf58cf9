//! The benchmark. It runs jobs for which users of the library and of the programs wait.
//!
//! The arguments are the name of a job or `all`, a seed, and optionally a divisor. The divisor makes the job smaller. For each job,
//! the program prints the name of the job and a digest of all results.
#![tactic(auto)]

mod awkward;
mod digest;
mod kept;
mod mix;
mod programs;
mod random;
mod readers;
mod records;

use std::alloc::{AllocError, Global};
use std::env;
use std::process::ExitCode;

/// The jobs, each with its `count` if there is no divisor. The comment of the function for a job says what the job does `count`
/// times.
const JOBS: [(&str, u64); 6] = [
    ("log", 8_000_000),
    ("refused", 4_000_000),
    ("canonical", 6_000_000),
    ("lines", 3_000_000),
    ("readers", 12_000_000),
    ("awkward", 60_000),
];

fn main(rt: HostRuntime) -> ExitCode {
    match run(&rt) {
        Some(status) => status,
        None => ExitCode::from(2),
    }
}

/// Runs the jobs that the arguments name. Returns `None` if an argument is missing or is not a number, if the divisor is 0, or if
/// memory or the output failed.
fn run(rt: &HostRuntime) -> Option<ExitCode> {
    let mut words = env::args(rt).ok()?.skip(1);
    let job = words.next()?;
    let seed = words.next()?.as_str().parse::<u64>().ok()?;
    let divisor = match words.next() {
        Some(word) => word.as_str().parse::<u64>().ok()?,
        None => 1,
    };
    if divisor == 0 {
        return None;
    }
    for (name, count) in JOBS {
        if job.as_str() == name || job.as_str() == "all" {
            let digest = run_job(rt.alloc(), name, seed, count / divisor).ok()?;
            println!(rt; "{name} {digest:016x}").ok()?;
        }
    }
    Some(ExitCode::SUCCESS)
}

/// Runs the job with this name, and returns a digest of its results.
fn run_job(alloc: Global, name: &str, seed: u64, count: u64) -> Result<u64, AllocError> {
    match name {
        "log" => programs::log(alloc, seed, count),
        "refused" => programs::refused(alloc, seed, count),
        "canonical" => programs::canonical(alloc, seed, count),
        "lines" => programs::answers(alloc, seed, count),
        "readers" => readers::readers(alloc, seed, count),
        _ => awkward::awkward(alloc, seed, count),
    }
}
