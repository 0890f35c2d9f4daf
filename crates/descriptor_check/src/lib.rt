//! The check of descriptor sets: from their bytes to the verdict on their files, as text.
#![tactic(auto)]

mod against;
mod answer;
mod arguments;
mod batches;
mod change_formats;
mod checking;
mod complaints;
mod described;
mod devices;
mod guises;
mod inputs;
mod olders;
mod runs;
mod strict;
mod unread;
mod verdicts;

pub use against::check_against;
pub use answer::{Answer, LinkedSet, Status, Wanted};
pub use arguments::{Job, Request, VERSION, help, read_arguments};
pub use batches::{BatchError, Flaw, NotASet, read_batch};
pub use checking::check;
pub use devices::{CheckDevices, DeviceError, Part};
pub use guises::Guise;
pub use inputs::Input;
pub use olders::Older;
pub use runs::run;
pub use verdicts::{Refusal, Verdict, verdict_on, verdict_on_joined};
