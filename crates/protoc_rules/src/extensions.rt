//! What extensions may not be.

ghost use Rattle.std.specs.Prelude.{◌≡◌, ◌++◌, IfOk, OnOk};
ghost use Rattle.std.specs.List.{flat_map, list_any};
ghost use Rattle.std.specs.Str.{bytes_eq};
ghost use Rattle.protoc_rules.specs.Extensions as spec;
ghost use Rattle.protoc_rules.specs.Fields.{site_of};
ghost use Rattle.protoc_rules.specs.Linked.{linked};

use crate::faults::{Found, StrictKind};
use crate::fields::{Site, tell_site};
use crate::known::Known;
use crate::labels::{is_optional, is_required};
use crate::maps::{MapSite, camel_case};
use pool_types::{ExtensionDescriptorInner, Identity, KindIndex};
use proto_types::FieldDescriptorProto;
use proto_types::tag::field;
use std::alloc::{AllocError, Global};

/// The messages of options, which proto3 may extend. Inside its makers' house they stand in the
/// package `proto2`.
const OPTION_MESSAGES: [&str; 18] = [
    "google.protobuf.FileOptions",
    "google.protobuf.MessageOptions",
    "google.protobuf.FieldOptions",
    "google.protobuf.EnumOptions",
    "google.protobuf.EnumValueOptions",
    "google.protobuf.ServiceOptions",
    "google.protobuf.MethodOptions",
    "google.protobuf.OneofOptions",
    "google.protobuf.ExtensionRangeOptions",
    "proto2.FileOptions",
    "proto2.MessageOptions",
    "proto2.FieldOptions",
    "proto2.EnumOptions",
    "proto2.EnumValueOptions",
    "proto2.ServiceOptions",
    "proto2.MethodOptions",
    "proto2.OneofOptions",
    "proto2.ExtensionRangeOptions",
];

/// Whether a name is one of some names.
fn is_among(names: &[&str], name: &str) -> bool
    ensures { result ≡ list_any (λ other. bytes_eq other.now name.now) names.now }
{
    names.iter().any(|other| *other == name)
}

/// Whether a full name is that of a message of options.
#[tactic(auto, unfolding(crate::specs::Extensions::is_of_options))]
fn is_of_options(name: &str) -> bool
    ensures { result ≡ spec.is_of_options name.now }
{
    is_among(&OPTION_MESSAGES, name)
}

/// Whether it extends a message set, and is no optional message.
fn is_wrong_in_set(site: Site<'_>) -> bool
    ensures { result ≡ spec.is_wrong_in_set (site_of site.entry) }
{
    site.in_message_set
        && !(is_optional(site.record.label()) && matches!(site.kind, KindIndex::Message(_)))
}

/// Whether an extension has another JSON name than the one that is made of its name.
fn has_json_name(alloc: Global, field: &FieldDescriptorProto) -> Result<bool, AllocError>
    ensures { IfOk result (λ has. has ≡ spec.has_json_name field.now) }
{
    match &field.json_name {
        Some(json) => {
            let made = camel_case(alloc, field.name().as_bytes(), false)?;
            Ok(json.as_str().as_bytes() != made.as_slice())
        }
        None => Ok(false),
    }
}

/// Appends what an extension may not be.
fn tell_extension_site(found: &mut Found, site: Site<'_>) -> Result<(), AllocError>
    ensures { OnOk result (found.new
        ≡ found.old ++ spec.extension_site_faults (site_of site.entry)) }
{
    let required = is_required(site.record.label());
    let in_oneof = site.record.oneof_index.is_some();
    let json_name = has_json_name(found.alloc(), site.record)?;
    let wrong = is_wrong_in_set(site);
    tell_site(found, site)?;
    found.tell_if(
        required,
        StrictKind::RequiredExtension.of(site.id),
        field::LABEL,
    )?;
    found.tell_if(
        in_oneof,
        StrictKind::ExtensionOneof.of(site.id),
        field::ONEOF_INDEX,
    )?;
    found.tell_if(
        json_name,
        StrictKind::ExtensionJsonName.of(site.id),
        field::JSON_NAME,
    )?;
    found.tell_if(
        wrong,
        StrictKind::MessageSetExtension.of(site.id),
        field::TYPE,
    )
}

impl Known<'_> {
    /// Appends what an extension of a message may not be: in proto3 of anything but options, nor a
    /// map field.
    fn tell_extended(
        self,
        found: &mut Found,
        site: Site<'_>,
        extended: &Identity,
    ) -> Result<(), AllocError>
        ensures { OnOk result (found.new ≡ found.old
            ++ spec.extended_faults (linked self.entry.items) (site_of site.entry) extended.now) }
    {
        let wrong = site.in_proto3 && !is_of_options(extended.full_name());
        found.tell_if(
            wrong,
            StrictKind::ExtensionInProto3.of(site.id),
            field::EXTENDEE,
        )?;
        let around = extended;
        self.tell_map(found, MapSite { site, around })
    }

    /// Appends what an extension of the message with an index may not be.
    fn tell_extendee(
        self,
        found: &mut Found,
        site: Site<'_>,
        extendee: u32,
    ) -> Result<(), AllocError>
        ensures { OnOk result (found.new ≡ found.old
            ++ spec.extendee_faults (linked self.entry.items) (site_of site.entry) extendee) }
    {
        match self.items.message_at(extendee) {
            Some(message) => self.tell_extended(found, site, &message.id),
            None => Ok(()),
        }
    }

    /// Appends what an extension may not be.
    fn tell_extension(
        self,
        found: &mut Found,
        extension: &ExtensionDescriptorInner,
    ) -> Result<(), AllocError>
        ensures { OnOk result (found.new
            ≡ found.old ++ spec.extension_faults (linked self.entry.items) extension.now) }
    {
        let Some(record) = self.items.field_record(&extension.id) else {
            return Ok(());
        };
        let site = Site {
            id: &extension.id,
            record,
            kind: extension.kind,
            in_proto3: self.items.in_proto3(extension.id.file),
            is_closed: self.items.is_closed(extension.kind),
            in_message_set: self.is_message_set(extension.extendee),
        };
        tell_extension_site(found, site)?;
        self.tell_extendee(found, site, extension.extendee)
    }

    /// Appends what the extensions may not be.
    pub(crate) fn tell_extensions(self, found: &mut Found) -> Result<(), AllocError>
        ensures { OnOk result (found.new ≡ found.old
            ++ flat_map (spec.extension_faults (linked self.entry.items)) self.entry.items.extensions.now) }
    {
        let extensions = self.items.extensions;
        for extension in extensions {
            self.tell_extension(found, extension)?;
        }
        Ok(())
    }
}
