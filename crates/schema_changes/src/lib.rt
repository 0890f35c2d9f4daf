//! What a new schema changes of an old one, so that bytes are read otherwise.
#![tactic(auto)]

mod answers;
mod asked;
mod change;
mod compared;
mod entries;
mod kinds;
mod lacking;
mod laws;
mod map_entries;
mod message_sets;
mod oneofs;
mod pairs;
mod parts;
mod records;

pub use asked::Asked;
pub use change::{MessageChange, WireChange, WireChangeKind};
pub use compared::Compared;
pub use entries::{Entry, extension_entry, field_entry};
pub use kinds::messages_of;
pub use lacking::lacking_number;
pub use laws::{chains, loss_is_lost, no_loss_is_read, unchanged_is_read};
pub use parts::Parts;
