//! The texts of a verdict: how much a batch declares, the faults of a refused one, and what is
//! wrong with bytes, as lines for people and as objects of JSON; and the verdict in the formats of
//! other tools: annotations of GitHub's workflows, GitLab's code quality, and SARIF, the last two
//! of changes too.
#![tactic(auto)]

mod accepted;
mod annotations;
mod change_rules;
mod changes;
mod declaring;
mod elements;
mod fault_kinds;
mod fingerprints;
pub mod format_laws;
mod formats;
mod grouped;
mod hidden;
mod indexes;
mod json_faults;
mod known;
pub mod laws;
mod lines;
mod members;
mod notes;
mod objects;
mod percent;
mod places;
mod plain;
mod plain_faults;
mod quality;
mod refused;
mod rules;
mod sarif;
mod scopes;
mod strings;
mod suggestions;
mod telling;
mod texts;
mod wire_words;

pub use accepted::accepted_text;
pub use annotations::annotations_text;
pub use changes::{ChangeMarks, sarif_of};
pub use fault_kinds::related_label;
pub use fingerprints::Marked;
pub use formats::{Format, accepted_report, refused_report, too_many_report, unread_report};
pub use json_faults::write_fault_json;
pub use lines::write_line;
pub use objects::{accepted_json, refused_json, too_many_json, unread_json};
pub use plain::Plain;
pub use plain_faults::write_fault_lines;
pub use quality::{quality_of, quality_text};
pub use refused::{RefusedBatch, ToldRefusal, refused_text, tell_refusal, too_many_text};
pub use sarif::sarif_text;
pub use strings::{json_string, write_json_string};
pub use telling::{Position, ToldFault, ToldPlace, ToldSecond, tell_faults};
pub use wire_words::bytes_words;
