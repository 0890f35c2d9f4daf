ghost use Rattle.std.specs.Prelude.{◌≡◌, pos, ◌-ℤ◌, Some, codes};
ghost use Rattle.std.specs.Fmt.{DisplaysOnOk};
ghost use Rattle.std.specs.Option.{option_copied};
ghost use Rattle.pool_faults.specs.Fault.{shown_label, name_fault_text, reference_fault_text};
ghost use Rattle.pool_faults.specs.Fault.{number_fault_text, value_fault_text, range_text};
ghost use Rattle.pool_faults.specs.Fault.{out_of_range_text, duplicate_extension_text, between};
ghost use Rattle.pool_faults.specs.Fault.{line_text};

use crate::Label;
use plain_data::Text;
use std::error::Error;
use std::fmt;

/// A rule that a batch breaks, and where.
#[derive(PartialEq, Drop)]
pub enum DescriptorErrorKind {
    /// A type that needs a type name has none.
    MissingRequiredField {
        label: Label,
    },
    /// A file is written in a language that is neither of the two.
    UnknownSyntax {
        syntax: Text,
        found: Label,
    },
    /// Two new files have one name.
    DuplicateFileName {
        name: Text,
    },
    /// An import names no file.
    FileNotFound {
        name: Text,
        found: Label,
    },
    /// A public or weak import is no place of the list of imports.
    InvalidImportIndex,
    /// The oneof of a field is no place of the list of oneofs.
    InvalidOneofIndex,
    /// A name is defined already.
    DuplicateName {
        name: Text,
        first: Label,
        second: Label,
    },
    /// Two fields of a message have one number.
    DuplicateFieldNumber {
        number: i32,
        first: Label,
        second: Label,
    },
    /// Two fields of a message have one JSON name.
    DuplicateFieldJsonName {
        name: Text,
        first: Label,
        second: Label,
    },
    /// Two fields of a message have names that are one without case and underscores.
    DuplicateFieldCamelCaseName {
        first_name: Text,
        second_name: Text,
        first: Label,
        second: Label,
    },
    /// A field's number is none that a field may have.
    InvalidFieldNumber {
        number: i32,
        found: Label,
    },
    /// A field's number is reserved.
    FieldNumberInReservedRange {
        number: i32,
        start: i32,
        end: i32,
        defined: Label,
        found: Label,
    },
    /// A field's number is left to extensions.
    FieldNumberInExtensionRange {
        number: i32,
        start: i32,
        end: i32,
        defined: Label,
        found: Label,
    },
    /// An extension's number isn't left to extensions.
    ExtensionNumberOutOfRange {
        number: i32,
        message: Text,
        found: Label,
    },
    /// Two extensions of a message have one number.
    DuplicateExtensionNumber {
        number: i32,
        message: Text,
        first: Label,
        second: Label,
    },
    /// A reference means nothing that the file sees.
    NameNotFound {
        name: Text,
        found: Label,
    },
    /// A reference begins with a name that means something nearer, which has no such part.
    NameShadowed {
        name: Text,
        shadowed_name: Text,
        found: Label,
    },
    /// A reference means something of a kind that isn't wanted.
    InvalidType {
        name: Text,
        expected: Text,
        found: Label,
        defined: Label,
    },
    /// A default value is none of the field's type.
    InvalidFieldDefault {
        value: Text,
        kind: Text,
        found: Label,
    },
    /// An enum has no value.
    EmptyEnum {
        found: Label,
    },
    /// The first value of an enum isn't 0, as proto3 wants it.
    InvalidProto3EnumDefault {
        found: Label,
    },
    /// Two values of an enum have one number.
    DuplicateEnumNumber {
        number: i32,
        first: Label,
        second: Label,
    },
    /// The number of an enum's value is reserved.
    EnumNumberInReservedRange {
        number: i32,
        start: i32,
        end: i32,
        defined: Label,
        found: Label,
    },
}

impl DescriptorErrorKind {
    /// The label that the fault shows, or none where it shows none.
    pub fn label(&self) -> Option<&Label>
        ensures { option_copied result ≡ shown_label self.now }
    {
        match self {
            DescriptorErrorKind::DuplicateFileName { .. }
            | DescriptorErrorKind::InvalidImportIndex
            | DescriptorErrorKind::InvalidOneofIndex => None,
            DescriptorErrorKind::MissingRequiredField { label } => Some(label),
            DescriptorErrorKind::UnknownSyntax { found, .. }
            | DescriptorErrorKind::FileNotFound { found, .. }
            | DescriptorErrorKind::InvalidFieldNumber { found, .. }
            | DescriptorErrorKind::FieldNumberInReservedRange { found, .. }
            | DescriptorErrorKind::FieldNumberInExtensionRange { found, .. }
            | DescriptorErrorKind::ExtensionNumberOutOfRange { found, .. }
            | DescriptorErrorKind::NameNotFound { found, .. }
            | DescriptorErrorKind::NameShadowed { found, .. }
            | DescriptorErrorKind::InvalidType { found, .. }
            | DescriptorErrorKind::InvalidFieldDefault { found, .. }
            | DescriptorErrorKind::EmptyEnum { found }
            | DescriptorErrorKind::InvalidProto3EnumDefault { found }
            | DescriptorErrorKind::EnumNumberInReservedRange { found, .. } => Some(found),
            DescriptorErrorKind::DuplicateName { second, .. }
            | DescriptorErrorKind::DuplicateFieldNumber { second, .. }
            | DescriptorErrorKind::DuplicateFieldJsonName { second, .. }
            | DescriptorErrorKind::DuplicateFieldCamelCaseName { second, .. }
            | DescriptorErrorKind::DuplicateExtensionNumber { second, .. }
            | DescriptorErrorKind::DuplicateEnumNumber { second, .. } => Some(second),
        }
    }

    /// Writes the text of a name that is taken already, or what follows for another fault.
    fn fmt_name_fault<W: fmt::Write>(&self, f: &mut fmt::Formatter<W>) -> fmt::Result
        ensures { DisplaysOnOk W.write_str_gives f.old result
            (Some (name_fault_text self.now)) f.new }
    {
        match self {
            DescriptorErrorKind::DuplicateName {
                name,
                first,
                second,
            } => {
                let name = name.as_str();
                let file = first.file();
                if file == second.file() {
                    write!(f, "name '{name}' is defined twice")
                } else {
                    write!(f, "name '{name}' is already defined in file '{file}'")
                }
            }
            DescriptorErrorKind::DuplicateFieldJsonName { name, .. } => {
                let name = name.as_str();
                write!(f, "a field with JSON name '{name}' is already defined")
            }
            DescriptorErrorKind::DuplicateFieldCamelCaseName {
                first_name,
                second_name,
                ..
            } => {
                let first = first_name.as_str();
                let second = second_name.as_str();
                write!(
                    f,
                    "camel-case name of field '{first}' conflicts with field '{second}'"
                )
            }
            _ => self.fmt_reference_fault(f),
        }
    }

    /// Writes the text of a reference or a default that means nothing, or what follows for another
    /// fault.
    fn fmt_reference_fault<W: fmt::Write>(&self, f: &mut fmt::Formatter<W>) -> fmt::Result
        ensures { DisplaysOnOk W.write_str_gives f.old result
            (Some (reference_fault_text self.now)) f.new }
    {
        match self {
            DescriptorErrorKind::NameNotFound { name, .. } => {
                let name = name.as_str();
                write!(f, "name '{name}' is not defined")
            }
            DescriptorErrorKind::NameShadowed {
                name,
                shadowed_name,
                ..
            } => {
                let name = name.as_str();
                let shadowed = shadowed_name.as_str();
                write!(f, "'{name}' resolves to '{shadowed}', which is not defined")
            }
            DescriptorErrorKind::InvalidType { name, expected, .. } => {
                let name = name.as_str();
                let expected = expected.as_str();
                write!(f, "'{name}' is not {expected}")
            }
            DescriptorErrorKind::InvalidFieldDefault { value, kind, .. } => {
                let value = value.as_str();
                let kind = kind.as_str();
                write!(f, "invalid default value '{value}' for type '{kind}'")
            }
            _ => self.fmt_number_fault(f),
        }
    }

    /// Writes the text of a number that a field or an extension may not have, or what follows for
    /// another fault.
    fn fmt_number_fault<W: fmt::Write>(&self, f: &mut fmt::Formatter<W>) -> fmt::Result
        ensures { DisplaysOnOk W.write_str_gives f.old result
            (Some (number_fault_text self.now)) f.new }
    {
        match self {
            DescriptorErrorKind::DuplicateFieldNumber { number, .. } => {
                write!(f, "field number '{number}' is already used")
            }
            DescriptorErrorKind::InvalidFieldNumber { number, .. } => {
                write!(f, "invalid field number '{number}'")
            }
            DescriptorErrorKind::FieldNumberInReservedRange {
                number,
                start,
                end,
                ..
            } => fmt_field_in_range(f, number, "reserved", start, end),
            DescriptorErrorKind::FieldNumberInExtensionRange {
                number,
                start,
                end,
                ..
            } => fmt_field_in_range(f, number, "extension", start, end),
            DescriptorErrorKind::ExtensionNumberOutOfRange {
                number,
                message,
                ..
            } => fmt_out_of_range(f, message.as_str(), *number),
            DescriptorErrorKind::DuplicateExtensionNumber {
                number,
                message,
                ..
            } => fmt_duplicate(f, message.as_str(), *number),
            _ => self.fmt_value_fault(f),
        }
    }

    /// Writes the text of a number that a value of an enum may not have, and nothing for another
    /// fault.
    fn fmt_value_fault<W: fmt::Write>(&self, f: &mut fmt::Formatter<W>) -> fmt::Result
        ensures { DisplaysOnOk W.write_str_gives f.old result
            (Some (value_fault_text self.now)) f.new }
    {
        match self {
            DescriptorErrorKind::DuplicateEnumNumber { number, .. } => {
                write!(f, "enum number '{number}' has already been used")
            }
            DescriptorErrorKind::EnumNumberInReservedRange {
                number,
                start,
                end,
                ..
            } => fmt_value_in_range(f, number, "reserved", start, end),
            _ => Ok(()),
        }
    }
}

/// A range by the word for what it is made of, with its first number and its last.
#[derive(Clone, Copy)]
struct NamedRange<'a> {
    range: &'a str,
    first: i32,
    last: i64,
}

/// Writes that a number lies in a range.
fn fmt_in_range<W: fmt::Write>(
    f: &mut fmt::Formatter<W>,
    what: &str,
    number: i32,
    around: NamedRange,
) -> fmt::Result
    ensures { DisplaysOnOk W.write_str_gives f.old result
        (Some (range_text what.now number around.entry.range.now around.entry.first
        around.entry.last)) f.new }
{
    let NamedRange { range, first, last } = around;
    write!(
        f,
        "{what} number '{number}' conflicts with {range} range '{first} to {last}'"
    )
}

/// Writes that a field's number lies in a range, up to an end that is not in it.
fn fmt_field_in_range<W: fmt::Write>(
    f: &mut fmt::Formatter<W>,
    number: &i32,
    range: &str,
    start: &i32,
    end: &i32,
) -> fmt::Result
    ensures { DisplaysOnOk W.write_str_gives f.old result
        (Some (range_text (codes "field") number.now range.now start.now (end.now -ℤ pos 1)))
        f.new }
{
    let around = NamedRange {
        range,
        first: *start,
        last: i64::from(*end) - 1,
    };
    fmt_in_range(f, "field", *number, around)
}

/// Writes that the number of an enum's value lies in a range, up to an end that is in it.
fn fmt_value_in_range<W: fmt::Write>(
    f: &mut fmt::Formatter<W>,
    number: &i32,
    range: &str,
    start: &i32,
    end: &i32,
) -> fmt::Result
    ensures { DisplaysOnOk W.write_str_gives f.old result
        (Some (range_text (codes "enum") number.now range.now start.now end.now)) f.new }
{
    let around = NamedRange {
        range,
        first: *start,
        last: i64::from(*end),
    };
    fmt_in_range(f, "enum", *number, around)
}

/// Writes that a message does not leave a number to extensions.
fn fmt_out_of_range<W: fmt::Write>(
    f: &mut fmt::Formatter<W>,
    message: &str,
    number: i32,
) -> fmt::Result
    ensures { DisplaysOnOk W.write_str_gives f.old result
        (Some (out_of_range_text message.now number)) f.new }
{
    write!(
        f,
        "message '{message}' does not define '{number}' as an extension number"
    )
}

/// Writes that an earlier extension of a message has a number.
fn fmt_duplicate<W: fmt::Write>(
    f: &mut fmt::Formatter<W>,
    message: &str,
    number: i32,
) -> fmt::Result
    ensures { DisplaysOnOk W.write_str_gives f.old result
        (Some (duplicate_extension_text message.now number)) f.new }
{
    write!(
        f,
        "extension number '{number}' of message '{message}' is already used"
    )
}

impl fmt::Display for DescriptorErrorKind {
    ghost use Rattle.pool_faults.specs.Fault.{fault_text};

    ghost output = { λ kind. Some (fault_text kind) };

    fn fmt<W: fmt::Write>(&self, f: &mut fmt::Formatter<W>) -> fmt::Result {
        match self {
            DescriptorErrorKind::MissingRequiredField { label } => {
                let path = label.path();
                write!(f, "missing required field at {path:?}")
            }
            DescriptorErrorKind::UnknownSyntax { syntax, .. } => {
                let syntax = syntax.as_str();
                write!(f, "unknown syntax '{syntax}'")
            }
            DescriptorErrorKind::DuplicateFileName { name } => {
                let name = name.as_str();
                write!(f, "a different file named '{name}' has already been added")
            }
            DescriptorErrorKind::FileNotFound { name, .. } => {
                let name = name.as_str();
                write!(f, "imported file '{name}' has not been added")
            }
            DescriptorErrorKind::InvalidImportIndex => write!(f, "invalid import index"),
            DescriptorErrorKind::InvalidOneofIndex => write!(f, "invalid oneof index"),
            DescriptorErrorKind::EmptyEnum { .. } => {
                write!(f, "enums must have at least one value")
            }
            DescriptorErrorKind::InvalidProto3EnumDefault { .. } => {
                write!(f, "the first value for proto3 enums must be 0")
            }
            _ => self.fmt_name_fault(f),
        }
    }
}

impl fmt::Debug for DescriptorErrorKind {
    ghost use Rattle.pool_faults.specs.Fault.{fault_text};

    ghost debug_output = { λ kind. Some (fault_text kind) };

    fn fmt<W: fmt::Write>(&self, f: &mut fmt::Formatter<W>) -> fmt::Result {
        write!(f, "{self}")
    }
}

impl Error for DescriptorErrorKind {}

/// A fault behind the label that it shows.
#[derive(Clone, Copy)]
pub struct Labelled<'a>(pub &'a DescriptorErrorKind);

impl fmt::Display for Labelled<'_> {
    ghost use Rattle.pool_faults.specs.Fault.{labelled_text};

    ghost output = { λ labelled. Some (labelled_text labelled.0.now) };

    fn fmt<W: fmt::Write>(&self, f: &mut fmt::Formatter<W>) -> fmt::Result {
        let fault = self.0;
        match fault.label() {
            Some(label) => {
                let prefix = LabelPrefix(label);
                write!(f, "{prefix} {fault}")
            }
            None => write!(f, "{fault}"),
        }
    }
}

/// The file of a label, with the line and the column at which its span begins, from 1.
#[derive(Clone, Copy)]
struct LabelPrefix<'a>(&'a Label);

impl fmt::Display for LabelPrefix<'_> {
    ghost use Rattle.pool_faults.specs.Fault.{place_text};

    ghost output = { λ prefix. Some (place_text prefix.0.now) };

    fn fmt<W: fmt::Write>(&self, f: &mut fmt::Formatter<W>) -> fmt::Result {
        let file = self.0.file();
        match self.0.span() {
            Some(span) => {
                let [line, column, _, _] = span;
                fmt_place(f, file, i64::from(line) + 1, i64::from(column) + 1)
            }
            None => write!(f, "{file}:"),
        }
    }
}

/// Writes a line and a column of a file.
fn fmt_place<W: fmt::Write>(
    f: &mut fmt::Formatter<W>,
    file: &str,
    line: i64,
    column: i64,
) -> fmt::Result
    ensures { DisplaysOnOk W.write_str_gives f.old result
        (Some (between file.now (codes ":") (line_text line column))) f.new }
{
    write!(f, "{file}:{line}:{column}:")
}
