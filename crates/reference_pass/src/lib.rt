//! The second pass: what declarations mean and break by their references and numbers, their items,
//! and how their records are linked.
#![tactic(auto)]

mod declared;
mod earlier;
mod extension;
mod field;
mod imports;
mod items;
mod linking;
mod message;
mod pool_extensions;
mod reading;
mod references;
mod resolve;
mod room;
mod service;
mod types;

pub use earlier::EarlierExtensions;
pub use extension::read_extension;
pub use imports::check_imports;
pub use items::NewItems;
pub use linking::{Linker, NextItems};
pub use message::read_message;
pub use pool_extensions::PoolExtensions;
pub use reading::Reading;
pub use resolve::ResolveVisitor;
pub use service::read_service;
