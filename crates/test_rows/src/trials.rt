use crate::files::{read, row_names, status_wanted};
use crate::outputs::{Output, Run};
use std::io;

/// A kind of rows: where they stand, and how one is run.
pub(super) trait Trial {
    /// The folder of the rows.
    fn folder(&self) -> &'static str;

    /// The ending of the file that has what is wanted.
    fn wanted(&self) -> &'static str;

    /// Reads the other files of the row with a name, and runs it.
    fn output(&self, rt: &HostRuntime, name: &str) -> io::Result<Output>;
}

/// How many rows were run, and how many of them differ from what is wanted.
#[derive(Clone, Copy, Default)]
pub(super) struct Tally {
    pub(super) rows: u64,
    pub(super) differing: u64,
}

impl Tally {
    /// Runs all rows of a kind, tells a line of each, and counts them.
    pub(super) fn run<T: Trial>(&mut self, rt: &HostRuntime, trial: &T) -> io::Result<()> {
        for name in row_names(rt, trial.folder(), trial.wanted())?.as_slice() {
            if !run_row(rt, trial, name.as_str())? {
                self.differing = self.differing.saturating_add(1);
            }
            self.rows = self.rows.saturating_add(1);
        }
        Ok(())
    }
}

/// Runs a row, tells a line of it, and says whether all is as wanted.
fn run_row<T: Trial>(rt: &HostRuntime, trial: &T, name: &str) -> io::Result<bool> {
    let ending = trial.wanted();
    let wanted = Output {
        text: read(rt, name, ending)?,
        status: status_wanted(rt, name)?,
    };
    let got = trial.output(rt, name)?;
    let run = Run { wanted, got };
    let is_met = run.is_met();
    if is_met {
        println!(rt; "ok {name}.{ending}")?;
    } else {
        println!(rt; "differs {name}.{ending}")?;
        run.tell_difference(rt)?;
    }
    Ok(is_met)
}
