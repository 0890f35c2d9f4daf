//! What the entries of maps may not be.

ghost use Rattle.std.specs.Prelude.{◌≡◌, ◌++◌, OnOk, IfOk};
ghost use Rattle.protoc_rules.specs.Fields.{site_of};
ghost use Rattle.protoc_rules.specs.Linked.{linked};
ghost use Rattle.protoc_rules.specs.Maps as spec;

use crate::Linked;
use crate::faults::{Found, StrictKind};
use crate::fields::Site;
use crate::known::Known;
use crate::labels::{is_optional, is_repeated};
use crate::linked::Recorded;
use pool_types::{FieldDescriptorInner, Identity, KindIndex};
use proto_types::tag::field;
use proto_types::{DescriptorProto, FieldDescriptorProto};
use std::alloc::{AllocError, Global};

/// A field or an extension that may be a map.
#[derive(Clone, Copy)]
pub(crate) struct MapSite<'a> {
    pub site: Site<'a>,
    /// The message whose field it is, or which it extends.
    pub around: &'a Identity,
}

/// An ASCII letter in upper case, where that is wanted; any other byte as it is.
fn upper_if(wanted: bool, byte: u8) -> u8
    ensures { result ≡ spec.upper_if wanted byte }
{
    if wanted && byte >= b'a' && byte <= b'z' {
        byte - 32
    } else {
        byte
    }
}

/// A name in camel case: without underscores, each letter behind one in upper case; the first one
/// too where that is wanted.
pub(crate) fn camel_case(alloc: Global, name: &[u8], first: bool) -> Result<Vec<u8>, AllocError>
    ensures { IfOk result (λ camel. camel.items ≡ spec.camel_case first name.now) }
{
    let mut capital = first;
    let mut camel = Vec::with_capacity(alloc, name.len())?;
    for byte in name {
        if *byte != b'_' {
            camel.push(upper_if(capital, *byte))?;
        }
        capital = *byte == b'_';
    }
    Ok(camel)
}

/// Whether a name is that of the entry of a map field.
fn is_entry_name(alloc: Global, entry: &str, field: &str) -> Result<bool, AllocError>
    ensures { IfOk result (λ is. is ≡ spec.is_entry_name entry.now field.now) }
{
    let mut wanted = camel_case(alloc, field.as_bytes(), true)?;
    wanted.extend_from_slice(b"Entry")?;
    Ok(entry.as_bytes() == wanted.as_slice())
}

/// Whether a field is optional and has a number and a name.
fn is_part(field: &FieldDescriptorProto, number: i32, name: &str) -> bool
    ensures { result ≡ spec.is_part field.now number name.now }
{
    is_optional(field.label()) && field.number() == number && field.name() == name
}

/// Whether a message has a key and a value, and nothing else that entries do not have.
fn has_parts(message: &DescriptorProto) -> bool
    ensures { result ≡ spec.has_parts message.now }
{
    let [key, value] = message.field.as_slice() else {
        return false;
    };
    is_part(key, 1, "key") && is_part(value, 2, "value")
}

/// Whether a message declares nothing that entries do not have.
fn is_plain(message: &DescriptorProto) -> bool
    ensures { result ≡ spec.is_plain message.now }
{
    message.nested_type.as_slice().is_empty()
        && message.enum_type.as_slice().is_empty()
        && message.extension_range.as_slice().is_empty()
        && message.extension.as_slice().is_empty()
}

/// Whether keys of maps may be of a kind: all but floating point, bytes, messages and enums.
fn is_key(kind: KindIndex) -> bool
    ensures { result ≡ spec.is_key kind }
{
    !matches!(
        kind,
        KindIndex::Double
            | KindIndex::Float
            | KindIndex::Bytes
            | KindIndex::Message(_)
            | KindIndex::Group(_)
            | KindIndex::Enum(_)
    )
}

/// The message that a kind is of; a group is of none here.
fn message_of(kind: KindIndex) -> Option<u32>
    ensures { result ≡ spec.message_of kind }
{
    match kind {
        KindIndex::Message(index) => Some(index),
        _ => None,
    }
}

impl Linked<'_> {
    /// Whether the message around an item, given by its index, is the one with an identity.
    fn is_around(self, parent: Option<u32>, id: &Identity) -> bool
        ensures { result ≡ spec.is_around (linked self.entry) parent id.now }
    {
        let Some(index) = parent else {
            return false;
        };
        match self.messages.get(index as usize) {
            Some(message) => message.id.full_name() == id.full_name(),
            None => false,
        }
    }

    /// Whether the first value of an enum is another number than 0.
    fn begins_behind_zero(self, kind: KindIndex) -> bool
        ensures { result ≡ spec.begins_behind_zero (linked self.entry) kind }
    {
        let KindIndex::Enum(index) = kind else {
            return false;
        };
        let Some(found) = self.enums.get(index as usize) else {
            return false;
        };
        match found.values.as_slice().first() {
            Some(value) => value.number != 0,
            None => false,
        }
    }

    /// Appends what the kinds of the key and the value of a map may not be.
    fn tell_kinds(
        self,
        found: &mut Found,
        id: &Identity,
        fields: &[FieldDescriptorInner],
    ) -> Result<(), AllocError>
        ensures { OnOk result (found.new
            ≡ found.old ++ spec.kind_faults (linked self.entry) id.now fields.now) }
    {
        let [key, value] = fields else {
            return Ok(());
        };
        let wrong = self.begins_behind_zero(value.kind);
        found.tell_if(
            !is_key(key.kind),
            StrictKind::MapKeyType.of(id),
            field::TYPE_NAME,
        )?;
        found.tell_if(wrong, StrictKind::MapEnumValue.of(id), field::TYPE_NAME)
    }

    /// Whether a message is made as the entry of a map field.
    fn is_entry_for(
        self,
        alloc: Global,
        map: MapSite<'_>,
        recorded: Recorded<'_>,
    ) -> Result<bool, AllocError>
        ensures { IfOk result (λ is. is ≡ spec.is_entry_for (linked self.entry)
            (site_of map.entry.site) map.entry.around.now
            recorded.entry.message.now recorded.entry.record.now) }
    {
        let (field, entry) = (map.site.record, recorded.record);
        let named = is_entry_name(alloc, entry.name(), field.name())?;
        Ok(
            named
                && is_repeated(field.label())
                && is_plain(entry)
                && has_parts(entry)
                && self.is_around(recorded.message.parent, map.around),
        )
    }

    /// Appends what the entry of a map field may not be.
    fn tell_entry(
        self,
        found: &mut Found,
        map: MapSite<'_>,
        recorded: Recorded<'_>,
    ) -> Result<(), AllocError>
        ensures { OnOk result (found.new ≡ found.old ++ spec.made_faults (linked self.entry)
            (site_of map.entry.site) map.entry.around.now
            recorded.entry.message.now recorded.entry.record.now) }
    {
        let id = map.site.id;
        if self.is_entry_for(found.alloc(), map, recorded)? {
            return self.tell_kinds(found, id, recorded.message.fields.as_slice());
        }
        found.tell(StrictKind::MapEntry.of(id), field::TYPE_NAME)
    }
}

impl Known<'_> {
    /// Appends what a field whose type is the message with an index may not be as a map field.
    fn tell_message_map(
        self,
        found: &mut Found,
        map: MapSite<'_>,
        index: u32,
    ) -> Result<(), AllocError>
        ensures { OnOk result (found.new ≡ found.old ++ spec.message_map_faults
            (linked self.entry.items) (site_of map.entry.site) map.entry.around.now index) }
    {
        if !self.is_map_entry(index) {
            return Ok(());
        }
        let Some(message) = self.items.message_at(index) else {
            return Ok(());
        };
        match self.items.message_record(&message.id) {
            Some(record) => self
                .items
                .tell_entry(found, map, Recorded { message, record }),
            None => Ok(()),
        }
    }

    /// Appends what a map field may not be, if it is one.
    pub(crate) fn tell_map(self, found: &mut Found, map: MapSite<'_>) -> Result<(), AllocError>
        ensures { OnOk result (found.new ≡ found.old
            ++ spec.map_faults (linked self.entry.items) (site_of map.entry.site)
            map.entry.around.now) }
    {
        match message_of(map.site.kind) {
            Some(index) => self.tell_message_map(found, map, index),
            None => Ok(()),
        }
    }
}
