//! A pool for callers that hold bytes and numbers: what is linked comes as bytes, what went wrong
//! is told as text, and so is what a pool changes of an older one; what the pool has is found by
//! numbers and names.
#![tactic(auto)]

mod answers;
mod batches;
mod changes;
mod finding;
mod items;
mod known;
mod linked;
mod lists;
mod names;
mod numbers;
mod ranges;
mod reading;
mod report;
mod sources;
mod status;

pub use answers::Answers;
pub use changes::Asked;
pub use known::Added;
pub use numbers::{
    EnumItem, ExtensionItem, FieldItem, FileItem, Found, Item, MessageItem, MethodItem, NONE,
    NumberRange, OneofItem, PoolCounts, ServiceItem, ValueItem,
};
pub use report::Report;
pub use status::Status;
