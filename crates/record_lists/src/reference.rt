//! The references of a file's record.

ghost use Rattle.std.specs.Prelude.{◌≡◌, [], ◌∷◌, ◌++◌, map, Some, IsOk, IfOk, OnOk};
ghost use Rattle.proto_types.specs.declared.records.field.FieldDescriptorProto.{FieldDescriptorProto as Field};
ghost use Rattle.proto_types.specs.declared.records.service.MethodDescriptorProto.{MethodDescriptorProto as Method};
ghost use Rattle.proto_types.specs.Readers.{text_of};
ghost use Rattle.record_walk.specs.Counts.{no_counts};
ghost use Rattle.record_walk.specs.Fits.{counts_with};
ghost use Rattle.record_walk.specs.Leads.{leads};
ghost use Rattle.record_walk.specs.Declaration.{declaration_of};
ghost use Rattle.record_walk.specs.Protos.{of_extension, of_field, of_method};
ghost use Rattle.record_walk.specs.Shown.{Shown};
ghost use Rattle.record_lists.specs.Reference.{reference, reference_in, references_in, references};
ghost use Rattle.record_lists.specs.Code.{reference_of};

use crate::{find_field_proto, find_method_proto, list_declarations};
use plain_data::Text;
use proto_types::FileDescriptorProto;
use record_walk::{Counts, Declaration, DeclarationKind};
use std::alloc::{AllocError, Global};
use std::slice;

/// A text by which a declaration refers to another.
#[derive(Drop)]
pub struct Reference<'a> {
    /// The full name of the declaration that refers.
    pub full_name: Text,
    /// The part of its record, as descriptor.proto names it.
    pub part: &'static str,
    pub text: &'a str,
}

/// The references of a file's record, in the order of the walk: of a field its type name, of a
/// method its input and its output, of an extension its extendee and its type name; an empty type
/// name is none. What the file declares must fit into a pool, as `Counts::of` tells.
///
/// # Errors
/// `AllocError` where memory was refused.
pub fn references<'a>(
    alloc: Global,
    file: &'a FileDescriptorProto,
) -> Result<Vec<Reference<'a>>, AllocError>
    requires { IsOk (counts_with no_counts (file.now ∷ [])) }
    ensures { IfOk result (λ found. map reference_of found.items ≡ references (file.now ∷ [])) }
{
    let base = Counts {
        files: 0,
        messages: 0,
        enums: 0,
        services: 0,
        extensions: 0,
    };
    let mut found = Vec::new(alloc);
    for declaration in list_declarations(alloc, base, slice::from_ref(file))? {
        add_references(alloc, &mut found, file, declaration)?;
    }
    Ok(found)
}

/// Puts the references of a file's declaration behind others.
fn add_references<'a>(
    alloc: Global,
    found: &mut Vec<Reference<'a>>,
    file: &'a FileDescriptorProto,
    declaration: Declaration,
) -> Result<(), AllocError>
    ensures { (d : Shown) → declaration ≡ declaration_of d → leads file.now d.path ≡ Some d.proto
        → OnOk result (map reference_of found.new.items
        ≡ map reference_of found.old.items ++ references_in d) }
{
    match declaration.kind {
        DeclarationKind::Field => {
            let text = type_name(file, declaration.path.as_slice());
            add_given(found, declaration.full_name, "type_name", text)
        }
        DeclarationKind::Method => {
            let (input, output) = method_types(file, declaration.path.as_slice());
            let full_name = declaration.full_name.clone(alloc)?;
            add_reference(found, full_name, "input_type", input)?;
            add_reference(found, declaration.full_name, "output_type", output)
        }
        DeclarationKind::Extension => {
            let (extendee, text) = extension_types(file, declaration.path.as_slice());
            let full_name = declaration.full_name.clone(alloc)?;
            add_reference(found, full_name, "extendee", extendee)?;
            add_given(found, declaration.full_name, "type_name", text)
        }
        _ => Ok(()),
    }
}

/// The type name of the field at a path.
fn type_name<'a>(file: &'a FileDescriptorProto, path: &[i32]) -> &'a str
    ensures { (field : Field) → leads file.now path.now ≡ Some (of_field field)
        → result.now ≡ text_of field.type_name }
{
    match find_field_proto(file, path) {
        Some(field) => field.type_name(),
        None => "",
    }
}

/// By what the method at a path names the message that it takes, and the one that it gives.
fn method_types<'a>(file: &'a FileDescriptorProto, path: &[i32]) -> (&'a str, &'a str)
    ensures input { (method : Method) → leads file.now path.now ≡ Some (of_method method)
        → result.0.now ≡ text_of method.input_type }
    ensures output { (method : Method) → leads file.now path.now ≡ Some (of_method method)
        → result.1.now ≡ text_of method.output_type }
{
    match find_method_proto(file, path) {
        Some(method) => (method.input_type(), method.output_type()),
        None => ("", ""),
    }
}

/// By what the extension at a path names the message that it extends, and its type name.
fn extension_types<'a>(file: &'a FileDescriptorProto, path: &[i32]) -> (&'a str, &'a str)
    ensures extendee { (field : Field) → leads file.now path.now ≡ Some (of_extension field)
        → result.0.now ≡ text_of field.extendee }
    ensures type_name { (field : Field) → leads file.now path.now ≡ Some (of_extension field)
        → result.1.now ≡ text_of field.type_name }
{
    match find_field_proto(file, path) {
        Some(extension) => (extension.extendee(), extension.type_name()),
        None => ("", ""),
    }
}

/// Puts a reference behind others, unless its text is empty.
fn add_given<'a>(
    found: &mut Vec<Reference<'a>>,
    full_name: Text,
    part: &'static str,
    text: &'a str,
) -> Result<(), AllocError>
    ensures { (d : Shown) → full_name ≡ d.full_name
        → OnOk result (map reference_of found.new.items
        ≡ map reference_of found.old.items ++ reference_in d part.now text.now) }
{
    if text.is_empty() {
        return Ok(());
    }
    add_reference(found, full_name, part, text)
}

/// Puts a reference behind others.
fn add_reference<'a>(
    found: &mut Vec<Reference<'a>>,
    full_name: Text,
    part: &'static str,
    text: &'a str,
) -> Result<(), AllocError>
    ensures { (d : Shown) → full_name ≡ d.full_name
        → OnOk result (map reference_of found.new.items
        ≡ map reference_of found.old.items ++ reference d part.now text.now ∷ []) }
{
    found.push(Reference {
        full_name,
        part,
        text,
    })?;
    Ok(())
}
