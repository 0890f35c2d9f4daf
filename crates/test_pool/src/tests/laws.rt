//! The laws of names, of what files see, of default values, and of a pool: calls that do nothing.

use descriptor_pool::DescriptorPool;
use field_rules::{escaped_is_one, refused_is_one, unescaped_is_escaped};
use name_resolution::{parents_count, sees_is_tested};
use name_tables::{earlier_names_stay, later_name_goes, names_are_first};
use std::test::Fail;

#[test]
fn laws_are_called(rt: HostRuntime) -> Result<(), Fail> {
    earlier_names_stay();
    later_name_goes();
    names_are_first();
    parents_count();
    sees_is_tested();
    unescaped_is_escaped();
    escaped_is_one();
    refused_is_one();
    DescriptorPool::new(rt.alloc()).made();
    Ok(())
}
