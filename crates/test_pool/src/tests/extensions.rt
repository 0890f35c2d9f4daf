//! Extensions by their messages and numbers.

use super::batches::pool_of;
use descriptor_pool::DescriptorPool;
use pool_types::{ExtensionDescriptor, MessageDescriptor};
use std::process::Abort;
use std::test::Fail;

/// Messages, of which the first has an extension.
const EXTENDED: &str = "file a.proto\nmessage M\nextensions 1 536870912\nend\nmessage A\nend\n\
    message B\nend\nextend x 1 optional int32 ~ M\nend\n";

/// Asserts which extensions messages have for numbers: the first message has one, and there are
/// three.
fn check_found(rt: &impl Abort, pool: &DescriptorPool) {
    let (first, second) = (MessageDescriptor::new(0), MessageDescriptor::new(1));
    assert!(rt; pool.get_extension(first, 1) == Some(ExtensionDescriptor::new(0)));
    assert!(rt; pool.get_extension(first, 2).is_none());
    assert!(rt; pool.get_extension(second, 1).is_none());
    assert!(rt; pool.get_extension(MessageDescriptor::new(3), 1).is_none());
}

#[test]
fn an_extension_is_found_by_its_message_and_its_number(rt: HostRuntime) -> Result<(), Fail> {
    check_found(&rt, &pool_of(rt.alloc(), EXTENDED)?);
    Ok(())
}
