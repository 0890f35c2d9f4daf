//! Runs each row of the tests that are files. A row is some files of one name in a group, which is
//! a folder of one of these in the folder that this runs in:
//!
//! - `scripts`: NAME.script, and its report NAME.report;
//! - `items`: NAME.script, and NAME.text, what its batches make and what the pool then has;
//! - `checks`: the set NAME.pb, or NAME.args with arguments in its place, one a line; NAME.text,
//!   what the check writes to its two outputs; and for rows that have one NAME.json, the same where
//!   an object is wanted.
//!
//! NAME.status is there where another exit status than 0 is wanted. A line of each row names the
//! file of what is wanted. The exit status is 0 where all rows are as wanted, 1 where one differs,
//! and 2 where there is no row of a kind or a file can't be read.
#![tactic(auto)]

mod batches;
mod checks;
mod devices;
mod difference;
mod files;
mod items;
mod outputs;
mod scripts;
mod trials;

use checks::CheckRows;
use items::ItemRows;
use scripts::ScriptRows;
use std::io;
use std::process::ExitCode;
use trials::Tally;

fn main(rt: HostRuntime) -> ExitCode {
    match run_all(&rt) {
        Ok(0) => ExitCode::from(0),
        Ok(_) => ExitCode::from(1),
        Err(error) => {
            let _ = eprintln!(rt; "{error}");
            ExitCode::from(2)
        }
    }
}

/// Runs all rows, and says how many differ from what is wanted.
fn run_all(rt: &HostRuntime) -> io::Result<u64> {
    let mut tally = Tally::default();
    tally.run(rt, &CheckRows::AsText)?;
    tally.run(rt, &CheckRows::AsJson)?;
    tally.run(rt, &ItemRows)?;
    tally.run(rt, &ScriptRows)?;
    let Tally { rows, differing } = tally;
    println!(rt; "{rows} rows, {differing} differ")?;
    Ok(differing)
}
