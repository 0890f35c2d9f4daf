ghost use Rattle.std.specs.Prelude.{◌≡◌, ◌∷◌, ◌++◌, List, IfOk, IfSome, OnOk, length};
ghost use Rattle.std.specs.Prelude.{string_bytes};
ghost use Rattle.std.specs.List.{flat_map};
ghost use Rattle.std.specs.Str.{IsCharBoundary};
ghost use Rattle.proto_types.specs.Names.{join};
ghost use Rattle.proto_types.specs.Readers.{text_of};
ghost use Rattle.proto_types.specs.declared.records.enumeration.EnumValueDescriptorProto.{EnumValueDescriptorProto};
ghost use Rattle.proto_types.specs.declared.records.field.FieldDescriptorProto.{FieldDescriptorProto};
ghost use Rattle.field_rules.specs.InnerNames.{AreNamesBeside, AreNamesOf, dot};

use crate::named::{Named, name_bytes};
use plain_data::{SharedText, Text};
use proto_types::{EnumValueDescriptorProto, FieldDescriptorProto, join_text, joined_len};
use std::alloc::{AllocError, Global};

/// The full names of the fields of a message, or of the values of an enum, which are taken one
/// after another. Where many of them are long, they share their memory.
#[derive(Drop)]
pub struct InnerNames {
    pub(crate) alloc: Global,
    /// Those that are still to be taken, one behind another, where they share their memory.
    pub shared: Option<SharedText>,
}

/// How many bytes a text may have that takes no memory.
const SHORT: usize = 30;

/// How few names take memory of their own.
const FEW: usize = 2;

impl InnerNames {
    /// The full names of fields in a scope.
    ///
    /// # Errors
    /// `AllocError` where memory was refused.
    pub fn new(
        alloc: Global,
        scope: &str,
        fields: &[FieldDescriptorProto],
    ) -> Result<InnerNames, AllocError>
        ensures { IfOk result (λ names. AreNamesOf names scope.now fields.now) }
    {
        let has_dot = !scope.is_empty();
        InnerNames::behind(alloc, (scope, has_dot), fields)
    }

    /// The full names of the values of an enum, which stand beside it: behind the text that is
    /// around it.
    ///
    /// # Errors
    /// `AllocError` where memory was refused.
    pub(crate) fn beside(
        alloc: Global,
        around: &str,
        values: &[EnumValueDescriptorProto],
    ) -> Result<InnerNames, AllocError>
        ensures { IfOk result (λ names. AreNamesBeside names around.now values.now) }
    {
        InnerNames::behind(alloc, (around, false), values)
    }

    /// The names of records behind a text, and maybe a dot.
    fn behind<R: Named>(
        alloc: Global,
        front: (&str, bool),
        records: &[R],
    ) -> Result<InnerNames, AllocError>
        ensures { IfOk result (λ names. IfSome names.shared (λ text. text
            ≡ flat_map (λ r. front.entry.0.now ++ dot front.entry.1 ++ R.own_name r) records.now)) }
    {
        let shared = match shared_len(front.0, records) {
            Some(len) => Some(SharedText::new(full_names(alloc, front, records, len)?)?),
            None => None,
        };
        Ok(InnerNames { alloc, shared })
    }

    /// Takes the full name of the next field.
    ///
    /// # Errors
    /// `AllocError` where memory was refused.
    #[inline(always)]
    pub fn next(&mut self, scope: &str, field: &FieldDescriptorProto) -> Result<Text, AllocError>
        requires { (rest : List FieldDescriptorProto)
            × AreNamesOf self.old scope.now (field.now ∷ rest) }
        ensures name { IfOk result (λ name. name ≡ join scope.now (text_of field.now.name)) }
        ensures rest { OnOk result ((rest : List FieldDescriptorProto)
            → AreNamesOf self.old scope.now (field.now ∷ rest)
            → AreNamesOf self.new scope.now rest) }
    {
        let name = field.name();
        match &mut self.shared {
            Some(names) => names.cut(joined_len(scope, name)),
            None => join_text(self.alloc, scope, name),
        }
    }

    /// Takes the full name of the next value, whose own name begins where a character begins.
    ///
    /// # Errors
    /// `AllocError` where memory was refused.
    #[inline(always)]
    pub(crate) fn next_beside(
        &mut self,
        around: &str,
        value: &EnumValueDescriptorProto,
    ) -> Result<Text, AllocError>
        requires { (rest : List EnumValueDescriptorProto)
            × AreNamesBeside self.old around.now (value.now ∷ rest) }
        ensures name { IfOk result (λ name. name ≡ around.now ++ text_of value.now.name) }
        ensures begins { IfOk result (λ name. IsCharBoundary name (length around.now)) }
        ensures rest { OnOk result ((rest : List EnumValueDescriptorProto)
            → AreNamesBeside self.old around.now (value.now ∷ rest)
            → AreNamesBeside self.new around.now rest) }
    {
        let name = value.name();
        match &mut self.shared {
            Some(names) => names.cut(around.len() + name.len()),
            None => Text::concatenated(self.alloc, around, "", name),
        }
    }
}

/// The names of records behind a text, and maybe a dot, one full name behind another, which have so
/// many bytes in all.
fn full_names<R: Named>(
    alloc: Global,
    front: (&str, bool),
    records: &[R],
    len: usize,
) -> Result<String, AllocError>
    ensures { IfOk result (λ text. string_bytes text
        ≡ flat_map (λ r. front.entry.0.now ++ dot front.entry.1 ++ R.own_name r) records.now) }
{
    let mut text = String::with_capacity(alloc, len)?;
    for record in records {
        push_front(&mut text, front)?;
        text.push_str(record.own_name())?;
    }
    Ok(text)
}

/// Puts a text, and maybe a dot, behind others.
fn push_front(text: &mut String, front: (&str, bool)) -> Result<(), AllocError>
    ensures { OnOk result (string_bytes text.new
        ≡ string_bytes text.old ++ front.entry.0.now ++ dot front.entry.1) }
{
    text.push_str(front.0)?;
    if front.1 { text.push('.') } else { Ok(()) }
}

/// About how many bytes the full names of records around which a text stands have in all; none
/// where they are few, or mostly short.
fn shared_len<R: Named>(around: &str, records: &[R]) -> Option<usize> {
    if records.len() <= FEW || around.len() <= SHORT / 2 {
        return None;
    }
    let fronts = records.len().saturating_mul(around.len().saturating_add(1));
    let len = fronts.saturating_add(name_bytes(records));
    if len / records.len() > SHORT {
        Some(len)
    } else {
        None
    }
}
