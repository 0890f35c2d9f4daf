//! What a new pool changes of an old one: so that bytes are read otherwise, calls of services,
//! texts of JSON, or code that is made of the schema. Each change is told with its text, its place
//! in both versions and what to do, as lines for people and as objects of JSON.
#![tactic(auto)]

mod alike;
mod at_levels;
mod by_level;
mod comparing;
mod direction;
mod fields;
mod kept_fields;
mod kinds;
mod laws;
mod lines;
mod members;
mod named;
mod objects;
mod options;
mod outer;
mod pools;
mod removed;
mod services;
mod sides;
mod telling;
mod told;
mod words;

pub use comparing::{Comparison, changes, tell_changes};
pub use direction::{Compatibility, Direction};
pub use kinds::{Level, levels};
pub use laws::{
    chains, change_is_lost, fresh_number_is_kept, keeps_itself, no_loss_is_read, unchanged_is_read,
    untold_is_kept, untold_is_read, untold_is_unchanged,
};
pub use lines::write_changes;
pub use named::message_named;
pub use objects::{behind_comma, compared_entries, with_changes};
pub use pools::{parts_of, wire_changes};
pub use telling::tell_change;
pub use told::ToldChanges;
