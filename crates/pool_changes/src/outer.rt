//! The fields of messages that stand in no other message. Most are such, and are found in two
//! steps.

ghost use Rattle.std.specs.Prelude.{◌≡◌, Some, IfSome};
ghost use Rattle.std.specs.Option.{option_copied};
ghost use Rattle.plain_data.specs.Lists.{at};
ghost use Rattle.pool_changes.specs.Removed.{field_in};

use plain_data::Items;
use proto_types::tag::{file, message};
use proto_types::{FieldDescriptorProto, FileDescriptorProto};

/// The record of a list at a position, if there is one.
fn record_at<'a, T>(records: &'a Items<T>, position: i32) -> Option<&'a T>
    ensures { option_copied result ≡ at records.now position }
{
    records.as_slice().get(usize::try_from(position).ok()?)
}

/// The field at a path, where that is one of a message that stands in no other.
#[tactic(auto, using(crate::proofs::FieldsLed::field_led))]
pub(crate) fn outer_field<'a>(
    root: &'a FileDescriptorProto,
    path: &[i32],
) -> Option<&'a FieldDescriptorProto>
    ensures { IfSome result (λ field. field_in root.now path.now ≡ Some field.now) }
{
    let [file::MESSAGE_TYPE, outer, message::FIELD, position] = path else {
        return None;
    };
    record_at(&record_at(&root.message_type, *outer)?.field, *position)
}
