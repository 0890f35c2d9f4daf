//! What messages and their fields may not be.

ghost use Rattle.std.specs.Prelude.{◌≡◌, ◌++◌, OnOk};
ghost use Rattle.std.specs.List.{flat_map};
ghost use Rattle.descriptor_decoding.specs.Flags.{says_message_set};
ghost use Rattle.protoc_rules.specs.Fields.{site_of};
ghost use Rattle.protoc_rules.specs.Linked.{linked};
ghost use Rattle.protoc_rules.specs.Messages as spec;
ghost use Rattle.protoc_rules.specs.Reserved.{reserved_names};

use crate::faults::{Found, StrictKind};
use crate::fields::{Site, tell_site};
use crate::known::Known;
use crate::labels::is_optional;
use crate::linked::Recorded;
use crate::maps::MapSite;
use crate::names::tell_name;
use crate::oneofs::{is_alone, tell_oneofs};
use crate::ranges::tell_ranges;
use crate::reserved::{ReservedNames, tell_reserved_names};
use descriptor_decoding::says_message_set;
use pool_types::{FieldDescriptorInner, Identity, MessageDescriptorInner};
use proto_types::FieldDescriptorProto;
use proto_types::tag::{field, message as tag};
use std::alloc::AllocError;

/// How long the path of a message is that stands in 31 others: it has two numbers of each, and two
/// of its own.
const DEEP_PATH: usize = 64;

/// Whether a field stands in a oneof, and is not optional.
fn is_wrong_in_oneof(field: &FieldDescriptorProto) -> bool
    ensures { result ≡ spec.is_wrong_in_oneof field.now }
{
    field.oneof_index.is_some() && !is_optional(field.label())
}

/// Appends what a field of a message may not be, where it is known whether it has a oneof for
/// itself.
fn tell_field_site(found: &mut Found, site: Site<'_>, alone: bool) -> Result<(), AllocError>
    ensures { OnOk result (found.new
        ≡ found.old ++ spec.field_site_faults alone (site_of site.entry)) }
{
    let in_oneof = is_wrong_in_oneof(site.record);
    let extends = site.record.extendee.is_some();
    let optional = site.record.proto3_optional() && !alone;
    tell_site(found, site)?;
    found.tell_if(
        in_oneof,
        StrictKind::OneofFieldLabel.of(site.id),
        field::LABEL,
    )?;
    found.tell_if(
        extends,
        StrictKind::FieldExtendee.of(site.id),
        field::EXTENDEE,
    )?;
    found.tell_if(
        optional,
        StrictKind::Proto3OptionalOneof.of(site.id),
        field::PROTO3_OPTIONAL,
    )?;
    found.tell_if(
        site.in_message_set,
        StrictKind::MessageSetField.of(site.id),
        field::NAME,
    )
}

/// Appends what the name of a message may not be, and that it stands too deep.
fn tell_identity(found: &mut Found, id: &Identity) -> Result<(), AllocError>
    ensures { OnOk result (found.new ≡ found.old ++ spec.identity_faults id.now) }
{
    let deep = id.path().len() == DEEP_PATH;
    tell_name(found, id)?;
    found.tell_if(deep, StrictKind::DeepMessage.of(id), tag::NAME)
}

/// Appends what a message may not be in proto3: a message set, nor one with extension ranges.
fn tell_message_proto3(
    found: &mut Found,
    in_proto3: bool,
    recorded: Recorded<'_>,
    is_message_set: bool,
) -> Result<(), AllocError>
    requires { is_message_set ≡ says_message_set recorded.record.now }
    ensures { OnOk result (found.new ≡ found.old ++ spec.message_proto3_faults in_proto3
        recorded.entry.message.now.id recorded.entry.record.now) }
{
    let Recorded { message, record } = recorded;
    let ranges = in_proto3 && !record.extension_range.as_slice().is_empty();
    let set = in_proto3 && is_message_set;
    found.tell_if(
        ranges,
        StrictKind::ExtensionRangesInProto3.of(&message.id),
        tag::EXTENSION_RANGE,
    )?;
    found.tell_if(
        set,
        StrictKind::MessageSetInProto3.of(&message.id),
        tag::OPTIONS,
    )
}

/// The reserved names of a message, and the names of its fields.
fn reserved_of(recorded: Recorded<'_>) -> ReservedNames<'_>
    ensures { reserved_names result
        ≡ spec.reserved_of recorded.entry.message.now recorded.entry.record.now }
{
    ReservedNames {
        names: recorded.record.reserved_name.as_slice(),
        tag: tag::RESERVED_NAME,
        members: &recorded.message.field_names,
        member_tag: tag::FIELD,
    }
}

/// Appends what a message may not be by its name, its place, its ranges and its reserved names.
fn tell_own(
    found: &mut Found,
    recorded: Recorded<'_>,
    is_message_set: bool,
) -> Result<(), AllocError>
    ensures { OnOk result (found.new ≡ found.old ++ spec.own_faults is_message_set
        recorded.entry.message.now recorded.entry.record.now) }
{
    let Recorded { message, record } = recorded;
    tell_identity(found, &message.id)?;
    tell_ranges(found, &message.id, record, is_message_set)?;
    tell_reserved_names(found, &message.id, reserved_of(recorded))
}

/// A message whose fields are looked at.
#[derive(Clone, Copy)]
struct FieldOwner<'a> {
    message: &'a MessageDescriptorInner,
    is_message_set: bool,
}

/// Appends what the oneofs of a message may not be.
fn tell_message_oneofs(found: &mut Found, recorded: Recorded<'_>) -> Result<(), AllocError>
    ensures { OnOk result (found.new ≡ found.old
        ++ spec.message_oneofs recorded.entry.message.now recorded.entry.record.now) }
{
    let Recorded { message, record } = recorded;
    tell_oneofs(found, record.field.as_slice(), message.oneofs.as_slice())
}

impl Known<'_> {
    /// Appends what a field of a message may not be.
    fn tell_field(
        self,
        found: &mut Found,
        owner: FieldOwner<'_>,
        field: &FieldDescriptorInner,
    ) -> Result<(), AllocError>
        ensures { OnOk result (found.new ≡ found.old
            ++ spec.field_faults (linked self.entry.items) owner.entry.message.now
            owner.entry.is_message_set field.now) }
    {
        let message = owner.message;
        let Some(record) = self.items.field_record(&field.id) else {
            return Ok(());
        };
        let site = Site {
            id: &field.id,
            record,
            kind: field.kind,
            in_proto3: self.items.in_proto3(field.id.file),
            is_closed: self.items.is_closed(field.kind),
            in_message_set: owner.is_message_set,
        };
        let alone = is_alone(message.oneofs.as_slice(), field);
        tell_field_site(found, site, alone)?;
        let around = &message.id;
        self.tell_map(found, MapSite { site, around })
    }

    /// Appends what the fields of a message may not be.
    fn tell_fields(self, found: &mut Found, owner: FieldOwner<'_>) -> Result<(), AllocError>
        ensures { OnOk result (found.new ≡ found.old
            ++ flat_map (spec.field_faults (linked self.entry.items) owner.entry.message.now
            owner.entry.is_message_set) owner.entry.message.now.fields) }
    {
        let fields = owner.message.fields.as_slice();
        for field in fields {
            self.tell_field(found, owner, field)?;
        }
        Ok(())
    }

    /// Appends what a message with its record may not be.
    fn tell_recorded(self, found: &mut Found, recorded: Recorded<'_>) -> Result<(), AllocError>
        ensures { OnOk result (found.new ≡ found.old ++ spec.recorded_faults
            (linked self.entry.items) recorded.entry.message.now recorded.entry.record.now) }
    {
        let in_proto3 = self.items.in_proto3(recorded.message.id.file);
        let owner = FieldOwner {
            message: recorded.message,
            is_message_set: says_message_set(recorded.record),
        };
        tell_own(found, recorded, owner.is_message_set)?;
        tell_message_proto3(found, in_proto3, recorded, owner.is_message_set)?;
        tell_message_oneofs(found, recorded)?;
        self.tell_fields(found, owner)
    }

    /// Appends what a message may not be.
    fn tell_message(
        self,
        found: &mut Found,
        message: &MessageDescriptorInner,
    ) -> Result<(), AllocError>
        ensures { OnOk result (found.new
            ≡ found.old ++ spec.message_faults (linked self.entry.items) message.now) }
    {
        match self.items.message_record(&message.id) {
            Some(record) => self.tell_recorded(found, Recorded { message, record }),
            None => Ok(()),
        }
    }

    /// Appends what the messages may not be.
    pub(crate) fn tell_messages(self, found: &mut Found) -> Result<(), AllocError>
        ensures { OnOk result (found.new ≡ found.old
            ++ flat_map (spec.message_faults (linked self.entry.items)) self.entry.items.messages.now) }
    {
        let messages = self.items.messages;
        for message in messages {
            self.tell_message(found, message)?;
        }
        Ok(())
    }
}
