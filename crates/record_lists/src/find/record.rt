ghost use Rattle.std.specs.Prelude.{◌≡◌};
ghost use Rattle.std.specs.Option.{option_copied};
ghost use Rattle.record_walk.specs.Leads.{last_entry};
ghost use Rattle.plain_data.specs.Lists.{at};

use plain_data::Items;
use proto_types::tag::{enum_, file, message, service};
use proto_types::{
    DescriptorProto, EnumDescriptorProto, EnumValueDescriptorProto, FieldDescriptorProto,
    FileDescriptorProto, MethodDescriptorProto, OneofDescriptorProto, ServiceDescriptorProto,
};

/// A borrowed record that declares something.
#[derive(Clone, Copy)]
pub(crate) enum Record<'a> {
    File(&'a FileDescriptorProto),
    Message(&'a DescriptorProto),
    Field(&'a FieldDescriptorProto),
    Oneof(&'a OneofDescriptorProto),
    Service(&'a ServiceDescriptorProto),
    Method(&'a MethodDescriptorProto),
    Enum(&'a EnumDescriptorProto),
    EnumValue(&'a EnumValueDescriptorProto),
    Extension(&'a FieldDescriptorProto),
}

impl<'a> Record<'a> {
    ghost use Rattle.std.specs.Option.{option_map};
    ghost use Rattle.record_walk.specs.Leads.{leads, leads_in_message, leads_in_enum};
    ghost use Rattle.record_walk.specs.Leads.{leads_in_service};
    ghost use Rattle.record_lists.specs.Record.{proto_in};

    /// The record at a path of a file, or none where nothing stands there.
    pub(super) fn at(root: &'a FileDescriptorProto, path: &[i32]) -> Option<Record<'a>>
        ensures { option_map proto_in result ≡ leads root.now path.now }
    {
        let [tag, position, rest @ ..] = path else {
            return path.is_empty().then_some(Record::File(root));
        };
        match *tag {
            file::MESSAGE_TYPE => Record::in_message(entry(&root.message_type, *position)?, rest),
            file::ENUM_TYPE => Record::in_enum(entry(&root.enum_type, *position)?, rest),
            file::SERVICE => Record::in_service(entry(&root.service, *position)?, rest),
            file::EXTENSION => Some(Record::Extension(leaf(&root.extension, *position, rest)?)),
            _ => None,
        }
    }

    /// The record at a path that goes on from a message.
    fn in_message(root: &'a DescriptorProto, path: &[i32]) -> Option<Record<'a>>
        ensures { option_map proto_in result ≡ leads_in_message root.now path.now }
    {
        let [tag, position, rest @ ..] = path else {
            return path.is_empty().then_some(Record::Message(root));
        };
        match *tag {
            message::FIELD => Some(Record::Field(leaf(&root.field, *position, rest)?)),
            message::NESTED_TYPE => Record::in_message(entry(&root.nested_type, *position)?, rest),
            message::ENUM_TYPE => Record::in_enum(entry(&root.enum_type, *position)?, rest),
            message::EXTENSION => Some(Record::Extension(leaf(&root.extension, *position, rest)?)),
            message::ONEOF_DECL => Some(Record::Oneof(leaf(&root.oneof_decl, *position, rest)?)),
            _ => None,
        }
    }

    /// The record at a path that goes on from an enum.
    fn in_enum(root: &'a EnumDescriptorProto, path: &[i32]) -> Option<Record<'a>>
        ensures { option_map proto_in result ≡ leads_in_enum root.now path.now }
    {
        match path {
            [] => Some(Record::Enum(root)),
            [enum_::VALUE, position] => Some(Record::EnumValue(entry(&root.value, *position)?)),
            _ => None,
        }
    }

    /// The record at a path that goes on from a service.
    fn in_service(root: &'a ServiceDescriptorProto, path: &[i32]) -> Option<Record<'a>>
        ensures { option_map proto_in result ≡ leads_in_service root.now path.now }
    {
        match path {
            [] => Some(Record::Service(root)),
            [service::METHOD, position] => Some(Record::Method(entry(&root.method, *position)?)),
            _ => None,
        }
    }
}

/// The entry of a list at a position, or none where there is none.
fn entry<'a, T>(items: &'a Items<T>, position: i32) -> Option<&'a T>
    ensures { option_copied result ≡ at items.now position }
{
    items.as_slice().get(usize::try_from(position).ok()?)
}

/// The entry at a position, where the path ends with it.
fn leaf<'a, T>(items: &'a Items<T>, position: i32, rest: &[i32]) -> Option<&'a T>
    ensures { option_copied result ≡ last_entry items.now position rest.now }
{
    if rest.is_empty() {
        entry(items, position)
    } else {
        None
    }
}
