//! What a pool holds: what is looked up in it, how it grows, and the roll-back of a batch.
#![tactic(auto)]

mod copy;
mod growing;
mod inner;
mod look_ups;
mod room;
mod same;

pub use growing::GrowingPool;
pub use inner::DescriptorPoolInner;
