//! The items of a pool by which bytes are read.

ghost use Rattle.std.specs.Prelude.{◌≡◌, true, IsTrue};
ghost use Rattle.schema_changes.specs.Parts.{parts, in_proto3, is_open, has_value, values_of};
ghost use Rattle.schema_changes.specs.Parts.{one_name};

use pool_types::{
    EnumDescriptorInner, EnumValueDescriptorInner, ExtensionDescriptorInner, FileDescriptorInner,
    MessageDescriptorInner, Syntax,
};

/// The items of a pool by which bytes are read.
#[derive(Clone, Copy)]
pub struct Parts<'a> {
    pub files: &'a [FileDescriptorInner],
    pub messages: &'a [MessageDescriptorInner],
    pub enums: &'a [EnumDescriptorInner],
    pub extensions: &'a [ExtensionDescriptorInner],
}

impl<'a> Parts<'a> {
    /// Whether a file is one of proto3.
    #[tactic(auto, unfolding(crate::specs::Parts::in_proto3))]
    pub fn in_proto3(self, file: u32) -> bool
        ensures { result ≡ in_proto3 (parts self.entry) file }
    {
        match self.files.get(file as usize) {
            Some(file) => file.syntax == Syntax::Proto3,
            None => false,
        }
    }

    /// Whether an enum is open.
    #[tactic(auto, unfolding(crate::specs::Parts::is_open))]
    pub fn is_open(self, index: u32) -> bool
        ensures { result ≡ is_open (parts self.entry) index }
    {
        match self.enums.get(index as usize) {
            Some(enumeration) => self.in_proto3(enumeration.id.file),
            None => false,
        }
    }

    /// The values of an enum.
    #[tactic(auto, unfolding(crate::specs::Parts::values_of))]
    pub(crate) fn values(self, index: u32) -> &'a [EnumValueDescriptorInner]
        ensures { result.now ≡ values_of (parts self.entry) index }
    {
        match self.enums.get(index as usize) {
            Some(enumeration) => enumeration.values.as_slice(),
            None => &[],
        }
    }

    /// The numbers of the values of an enum in order, each with the position of its value, as the
    /// enum has them. Nothing is said of them here: what they lead to is looked at.
    pub(crate) fn value_numbers(self, index: u32) -> &'a [(i32, u32)] {
        match self.enums.get(index as usize) {
            Some(enumeration) => enumeration.value_numbers.as_slice(),
            None => &[],
        }
    }

    /// Whether a message has the full name of one of another pool.
    #[inline(always)]
    #[tactic(auto, unfolding(crate::specs::Parts::one_name))]
    pub(crate) fn has_name_of(self, message: u32, other: Parts<'_>, index: u32) -> bool
        ensures { result ≡ one_name (parts self.entry) message (parts other.entry) index }
    {
        let Some(here) = self.messages.get(message as usize) else {
            return false;
        };
        let Some(there) = other.messages.get(index as usize) else {
            return false;
        };
        here.id.full_name == there.id.full_name
    }
}

/// Whether values have a number.
fn has_value(values: &[EnumValueDescriptorInner], number: i32) -> bool
    ensures { result ≡ has_value values.now number }
{
    values.iter().any(|value| value.number == number)
}

/// Whether the value at a position has a number.
#[tactic(auto, using(crate::proofs::Tests::passes_at))]
fn is_value_at(values: &[EnumValueDescriptorInner], position: usize, number: i32) -> bool
    ensures { IsTrue result → has_value values.now number ≡ true }
{
    match values.get(position) {
        Some(value) => value.number == number,
        None => false,
    }
}

/// Whether a list of numbers with positions, in order, leads to a value with a number.
fn is_value_listed(values: &[EnumValueDescriptorInner], numbers: &[(i32, u32)], number: i32) -> bool
    ensures { IsTrue result → has_value values.now number ≡ true }
{
    match numbers.binary_search_by_key(&number, |entry| entry.0) {
        Ok(at) => is_value_at(values, numbers[at].1 as usize, number),
        Err(_) => false,
    }
}

/// Whether values have a number. Mostly a list of their numbers leads to it.
pub(crate) fn has_value_by(
    values: &[EnumValueDescriptorInner],
    numbers: &[(i32, u32)],
    number: i32,
) -> bool
    ensures { result ≡ has_value values.now number }
{
    is_value_listed(values, numbers, number) || has_value(values, number)
}

/// Whether values have a number. Mostly the one at a position has it, or a list of their numbers
/// leads to it.
pub(crate) fn has_value_near(
    values: &[EnumValueDescriptorInner],
    numbers: &[(i32, u32)],
    position: usize,
    number: i32,
) -> bool
    ensures { result ≡ has_value values.now number }
{
    is_value_at(values, position, number) || has_value_by(values, numbers, number)
}
