//! The exports as their callers see them.

ghost use Rattle.std.specs.Prelude.{◌≡◌, Some};
ghost use Rattle.protolink_c.specs.Parted.{whole};

use crate::handle::Handle;
use crate::items::protolink_message;
use crate::names::{protolink_default, protolink_field_by_name, protolink_full_name};
use crate::part::Deed;
use crate::pools::{
    protolink_pool_add_script, protolink_pool_add_set, protolink_pool_clear, protolink_pool_clone,
    protolink_pool_counts, protolink_pool_find, protolink_pool_linked, protolink_pool_report,
};
use crate::status::{DONE, NOT_FOUND, SHORT};
use crate::view::View;
use numbered_pool::{Answers, Item, MessageItem, PoolCounts};
use std::alloc::Global;
use std::process::Abort;
use std::test::*;

/// Rules are broken.
const REFUSED: u8 = 1;

/// A file with one message and one field of it.
const SCRIPT: &[u8] = b"file shop.proto
package shop
message Order
field count 7 optional int32 ~ ~
default 42
end
end
";

/// No item.
const NOTHING: Item = Item {
    kind: 0,
    index: 0,
    position: 0,
};

/// A pool of a script's files, and its deed.
fn linked(rt: &impl Abort, alloc: Global, script: &[u8]) -> (Deed<Answers>, View)
    ensures { result.1.shown ≡ Some (result.0.content, (result.0.round, whole)) }
{
    let mut pool = Handle::empty();
    assert_eq!(rt; protolink_pool_add_script(alloc, &mut pool, script), DONE);
    pool.share(alloc).expect(rt, "files are linked")
}

/// Clears a pool, which owns nothing then.
fn end(rt: &impl Abort, alloc: Global, deed: Deed<Answers>, pool: View)
    requires { pool.shown ≡ Some (deed.content, (deed.round, whole)) }
{
    let mut pool = Handle::of_shared(alloc, deed, pool);
    protolink_pool_clear(alloc, &mut pool);
    assert!(rt; pool.into_box(alloc).is_none());
}

#[test]
fn a_field_is_found(rt: HostRuntime) -> Result<(), Fail> {
    let alloc = rt.alloc();
    let (deed, mut pool) = linked(&rt, alloc, SCRIPT);
    let mut item = NOTHING;
    let mut file = 9;
    let status = protolink_pool_find(alloc, &mut pool, b".shop.Order.count", &mut item, &mut file);
    assert_eq!(rt; status, DONE);
    assert_eq!(rt; (item.kind, item.index, item.position, file), (2, 0, 0, 0));
    let mut text = [0; 4];
    let mut length = 0;
    let status = protolink_default(alloc, &mut pool, &item, &mut text, &mut length);
    assert_eq!(rt; (status, length, text), (DONE, 2, [b'4', b'2', 0, 0]));
    end(&rt, alloc, deed, pool);
    Ok(())
}

#[test]
fn a_short_buffer_stays(rt: HostRuntime) -> Result<(), Fail> {
    let alloc = rt.alloc();
    let (deed, mut pool) = linked(&rt, alloc, SCRIPT);
    let order = Item {
        kind: 1,
        index: 0,
        position: 0,
    };
    let mut text = [1; 9];
    let mut length = 0;
    let status = protolink_full_name(alloc, &mut pool, &order, &mut text, &mut length);
    assert_eq!(rt; (status, length, text), (SHORT, 10, [1; 9]));
    end(&rt, alloc, deed, pool);
    Ok(())
}

#[test]
fn a_refusal_is_told(rt: HostRuntime) -> Result<(), Fail> {
    let alloc = rt.alloc();
    let mut pool = Handle::empty();
    let script = b"file a.proto\nimport b.proto\nend\n";
    assert_eq!(rt;
        protolink_pool_add_script(alloc, &mut pool, script),
        REFUSED
    );
    let (deed, mut pool) = pool.share(alloc).expect(&rt, "it has a report");
    let mut text = [0; 9];
    let mut length = 0;
    let status = protolink_pool_report(alloc, &mut pool, &mut text, &mut length);
    assert_eq!(rt; status, SHORT);
    let mut counts = PoolCounts {
        files: 9,
        messages: 9,
        enums: 9,
        services: 9,
        extensions: 9,
    };
    protolink_pool_counts(alloc, &mut pool, &mut counts);
    assert_eq!(rt; counts.files, 0);
    end(&rt, alloc, deed, pool);
    Ok(())
}

/// Whether a script is refused, and what is told of it in lines begins with a text.
fn is_refused(alloc: Global, pool: &mut Handle, script: &[u8], lines: &[u8]) -> bool {
    let status = protolink_pool_add_script(alloc, pool, script);
    let Some((deed, mut view)) = pool.take().share(alloc) else {
        return false;
    };
    let mut text = [0; 500];
    let mut length = 0;
    let told = protolink_pool_report(alloc, &mut view, &mut text, &mut length);
    pool.put(alloc, Handle::of_shared(alloc, deed, view));
    status == REFUSED && told == DONE && text.starts_with(lines)
}

#[test]
fn a_file_that_was_passed_over_is_not_told(rt: HostRuntime) -> Result<(), Fail> {
    let alloc = rt.alloc();
    let mut pool = Handle::empty();
    assert_eq!(rt; protolink_pool_add_script(alloc, &mut pool, SCRIPT), DONE);
    let script = b"file shop.proto\npublic 7\nend\nfile b.proto\npublic 5\nend\n";
    let lines = b"b.proto: invalid import index\n";
    assert!(rt; is_refused(alloc, &mut pool, script, lines));
    let script = b"file shop.proto\nmessage A\nend\nend\n\
        file b.proto\npackage shop\nmessage Order\nend\nend\n";
    let lines = b"b.proto: shop.Order: name 'shop.Order' is already defined in file 'shop.proto'\n\
        \x20 note: first declared at shop.proto: shop.Order\n";
    assert!(rt; is_refused(alloc, &mut pool, script, lines));
    protolink_pool_clear(alloc, &mut pool);
    assert!(rt; pool.into_box(alloc).is_none());
    Ok(())
}

#[test]
fn linked_files_are_a_set(rt: HostRuntime) -> Result<(), Fail> {
    let alloc = rt.alloc();
    let (deed, mut pool) = linked(&rt, alloc, SCRIPT);
    let mut set = [0; 100];
    let mut length = 0;
    let status = protolink_pool_linked(alloc, &mut pool, &mut set, &mut length);
    assert_eq!(rt; status, DONE);
    end(&rt, alloc, deed, pool);
    let set = set.get(..length).expect(&rt, "it fits");
    let mut again = Handle::empty();
    assert_eq!(rt; protolink_pool_add_set(alloc, &mut again, set), DONE);
    let (deed, mut pool) = again.share(alloc).expect(&rt, "a file is linked");
    let mut position = 9;
    let status = protolink_field_by_name(alloc, &mut pool, 0, b"count", &mut position);
    assert_eq!(rt; (status, position), (DONE, 0));
    end(&rt, alloc, deed, pool);
    Ok(())
}

/// What is told of a message.
const UNTOLD: MessageItem = MessageItem {
    file: 9,
    parent: 9,
    fields: 9,
    oneofs: 9,
    extensions: 9,
    nested_messages: 9,
    nested_enums: 9,
    nested_extensions: 9,
    extension_ranges: 9,
    reserved_ranges: 9,
    reserved_names: 9,
    map_key: 9,
    map_value: 9,
    is_map_entry: 9,
    is_message_set: 9,
    is_deprecated: 9,
};

#[test]
fn a_copy_stands_alone(rt: HostRuntime) -> Result<(), Fail> {
    let alloc = rt.alloc();
    let (deed, mut pool) = linked(&rt, alloc, SCRIPT);
    let mut copy = Handle::empty();
    assert_eq!(rt; protolink_pool_clone(alloc, &mut pool, &mut copy), DONE);
    end(&rt, alloc, deed, pool);
    let mut info = UNTOLD;
    let status = protolink_message(alloc, &mut View::empty(), 0, &mut info);
    assert_eq!(rt; (status, info.fields), (NOT_FOUND, 9));
    let (deed, mut pool) = copy.share(alloc).expect(&rt, "a file is linked");
    let status = protolink_message(alloc, &mut pool, 0, &mut info);
    assert_eq!(rt; (status, info.fields), (DONE, 1));
    end(&rt, alloc, deed, pool);
    Ok(())
}

#[test]
fn two_views_are_of_one_pool(rt: HostRuntime) -> Result<(), Fail> {
    let alloc = rt.alloc();
    let (deed, pool) = linked(&rt, alloc, SCRIPT);
    let (rest, one) = pool.into_part().expect(&rt, "it is of a pool").split_one();
    let mut first = View::of_part(rest);
    let mut second = View::of_part(one);
    let mut info = UNTOLD;
    let status = protolink_message(alloc, &mut second, 0, &mut info);
    assert_eq!(rt; (status, info.fields), (DONE, 1));
    let status = protolink_message(alloc, &mut first, 0, &mut info);
    assert_eq!(rt; status, DONE);
    let rest = first.into_part().expect(&rt, "it is of a pool");
    let one = second.into_part().expect(&rt, "it is of a pool");
    end(&rt, alloc, deed, View::of_part(rest.join(one)));
    Ok(())
}
