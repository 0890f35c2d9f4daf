//! What `protoc` refuses besides the rules of the linker.

ghost use Rattle.std.specs.Prelude.{◌≡◌, ◌++◌, IfOk, OnOk};
ghost use Rattle.protoc_rules.specs.Faults.{each_told};
ghost use Rattle.protoc_rules.specs.Linked.{linked};
ghost use Rattle.protoc_rules.specs.Strict as spec;

use crate::faults::{Found, StrictFault};
use crate::types::{tell_field_types, tell_type, types_at, written_at};
use crate::{Linked, WrittenTypes};
use plain_data::Items;
use proto_types::FieldType;
use std::alloc::{AllocError, Global};

impl Linked<'_> {
    /// Appends what the written types of the fields of messages break.
    #[tactic(auto, using(crate::proofs::Told::told_next))]
    fn tell_message_types(
        self,
        found: &mut Found,
        types: &[Items<Option<FieldType>>],
    ) -> Result<(), AllocError>
        ensures { OnOk result (found.new ≡ found.old
            ++ each_told (spec.message_type_faults types.now) self.entry.messages.now) }
    {
        let messages = self.messages;
        for (index, message) in messages.iter().enumerate() {
            let fields = message.fields.as_slice();
            tell_field_types(found, types_at(types, index), fields)?;
        }
        Ok(())
    }

    /// Appends what the written types of extensions break.
    #[tactic(auto, using(crate::proofs::Told::told_next))]
    fn tell_extension_types(
        self,
        found: &mut Found,
        types: &[Option<FieldType>],
    ) -> Result<(), AllocError>
        ensures { OnOk result (found.new ≡ found.old
            ++ each_told (spec.extension_type_faults types.now) self.entry.extensions.now) }
    {
        let extensions = self.extensions;
        for (index, extension) in extensions.iter().enumerate() {
            let written = written_at(types, index);
            tell_type(found, written, &extension.id, extension.kind)?;
        }
        Ok(())
    }
}

/// What `protoc` refuses besides the rules of the linker, in the files of a pool: what the written
/// types of fields and extensions break, which are those of the records before they were linked,
/// and then what files, messages, enums, services and extensions break, each in their order.
///
/// # Errors
/// `AllocError` where memory was refused.
pub fn strict_faults(
    alloc: Global,
    items: Linked<'_>,
    written: &WrittenTypes,
) -> Result<Items<StrictFault>, AllocError>
    ensures { IfOk result (λ faults. faults ≡ spec.strict_faults (linked items.entry) written.now) }
{
    let flags = items.flags(alloc)?;
    let known = items.known(&flags);
    let mut found = Found::new(alloc);
    items.tell_message_types(&mut found, written.fields.as_slice())?;
    items.tell_extension_types(&mut found, written.extensions.as_slice())?;
    items.tell_files(&mut found)?;
    known.tell_messages(&mut found)?;
    items.tell_enums(&mut found)?;
    items.tell_services(&mut found)?;
    known.tell_extensions(&mut found)?;
    Ok(Items::from_vec(found.into_vec()))
}
