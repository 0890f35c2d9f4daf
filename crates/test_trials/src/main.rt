//! Calls that ask for memory, each tried with what it needs made before. A tool runs a trial again
//! and again, and each time refuses another of the requests that the call makes. Another tool
//! damages descriptor sets, and has each told row by row.
//!
//! The arguments name trials, each of which writes one line: its name, what its call answered, and
//! `right`, or `wrong` where something is not what it should then be. Standard input has a
//! descriptor set, the one that `protoc` makes of the sources in `data`. By the argument `rows`
//! standard input is told row by row. Without any argument all trials are run, and the rows of the
//! file `sets.rows` are told behind them.
//!
//! Where memory is refused, nothing is written and the status is 3.
#![tactic(auto)]

mod batches;
mod copies;
mod names;
mod rows;
mod scripts;
mod sets;
mod told;
mod values;

use rows::write_rows;
use std::alloc::{AllocError, Global};
use std::io::Read;
use std::process::ExitCode;
use std::{env, fs, io};
use told::Told;

/// The names of all trials.
const TRIALS: [&str; 26] = [
    "accepted",
    "names",
    "types",
    "known",
    "one_pool",
    "one_pool_refused",
    "pool",
    "record",
    "file_item",
    "message_item",
    "enum_item",
    "service_item",
    "extension_item",
    "decode",
    "encode",
    "table",
    "tree",
    "insert",
    "grow",
    "joined",
    "descend",
    "resolve",
    "resolve_over_tree",
    "resolve_in_parts",
    "value",
    "escapes",
];

fn main(rt: HostRuntime) -> ExitCode {
    ExitCode::from(match tell(&rt) {
        Ok(()) => 0,
        Err(error) if error.kind() == io::ErrorKind::OutOfMemory => 3,
        Err(_error) => 1,
    })
}

/// Tells all that is asked for at once, so that nothing is told where memory is refused.
fn tell(rt: &HostRuntime) -> io::Result<()> {
    let alloc = rt.alloc();
    let words: Vec<String> = env::args(rt)?.collect(alloc)?;
    let mut input = Vec::new(alloc);
    rt.stdin().read_to_end(&mut input)?;
    let mut report = String::new(alloc);
    match words.as_slice().get(1..).unwrap_or(&[]) {
        [] => {
            write_all(alloc, &mut report, input.as_slice())?;
            let rows = fs::read(rt, "sets.rows")?;
            write_rows(alloc, &mut report, rows.as_slice())?;
        }
        [word] if word.as_str() == "rows" => write_rows(alloc, &mut report, input.as_slice())?,
        names => write_named(alloc, &mut report, names, input.as_slice())?,
    }
    print!(rt; "{report}")
}

/// Writes the lines of the trials that are named.
fn write_named(
    alloc: Global,
    report: &mut String,
    names: &[String],
    set: &[u8],
) -> Result<(), AllocError> {
    for name in names {
        write_trial(alloc, report, name.as_str(), set)?;
    }
    Ok(())
}

/// Writes the lines of all trials.
fn write_all(alloc: Global, report: &mut String, set: &[u8]) -> Result<(), AllocError> {
    for name in TRIALS {
        write_trial(alloc, report, name, set)?;
    }
    Ok(())
}

/// Writes the line of a trial.
fn write_trial(
    alloc: Global,
    report: &mut String,
    name: &str,
    set: &[u8],
) -> Result<(), AllocError> {
    match trial(alloc, name, set)? {
        Some(told) => writeln!(report, "{name}: {told}"),
        None => writeln!(report, "{name}: no trial has that name"),
    }
}

/// What the trial of a name tells, or none where there is no such trial.
fn trial(alloc: Global, name: &str, set: &[u8]) -> Result<Option<Told>, AllocError> {
    let told = match name {
        "accepted" => batches::link(alloc, scripts::SECOND)?,
        "names" => batches::link(alloc, scripts::FAULTY_NAMES)?,
        "types" => batches::link(alloc, scripts::FAULTY_TYPES)?,
        "known" => batches::link_known(alloc)?,
        "one_pool" => batches::link_again_and_again(alloc, scripts::EXTENDING)?,
        "one_pool_refused" => batches::link_again_and_again(alloc, scripts::EXTENDING_AND_FAULTY)?,
        "value" => values::value(alloc)?,
        "escapes" => values::escapes(alloc)?,
        _ => return trial_of_sets(alloc, name, set),
    };
    Ok(Some(told))
}

/// What a trial over the descriptor set tells, or one of names or of copies.
fn trial_of_sets(alloc: Global, name: &str, set: &[u8]) -> Result<Option<Told>, AllocError> {
    let told = match name {
        "decode" => sets::decoded(alloc, set)?,
        "encode" => sets::encoded(alloc, set)?,
        "record" => copies::record(alloc, set)?,
        _ => return trial_of_names(alloc, name, set),
    };
    Ok(Some(told))
}

/// What a trial over tables of names tells, or one over the set's pool.
fn trial_of_names(alloc: Global, name: &str, set: &[u8]) -> Result<Option<Told>, AllocError> {
    let told = match name {
        "table" => names::copy_hashed(alloc)?,
        "tree" => names::copy_tree(alloc)?,
        "insert" => names::insert_hashed(alloc)?,
        "grow" => names::insert_tree(alloc)?,
        "joined" => names::joined_hashed(alloc)?,
        "descend" => names::joined_tree(alloc)?,
        "resolve" => names::resolve_hashed(alloc)?,
        "resolve_over_tree" => names::resolve_tree(alloc)?,
        "resolve_in_parts" => names::resolve_as_tree(alloc)?,
        _ => return copies::in_a_pool(alloc, name, set),
    };
    Ok(Some(told))
}
