//! What is told of each kind of fault, a row for each.

ghost use Rattle.std.specs.Prelude.{◌≡◌};
ghost use Rattle.std.specs.Option.{option_copied, option_map};
ghost use Rattle.verdict_texts.specs.FaultKinds as spec;

use pool_faults::{DescriptorErrorKind as Fault, Label};
use proto_types::tag::{enum_, file, message};

/// What is told of a kind of fault.
#[derive(Clone, Copy)]
pub(crate) struct FaultKind<'a> {
    /// Its name.
    pub code: &'static str,
    pub second: Option<SecondPlace<'a>>,
    /// What to do, for people.
    pub remedy: &'static str,
}

/// The second place of a fault: of the first holder, of the range, or of what a name means.
#[derive(Clone, Copy)]
pub(crate) struct SecondPlace<'a> {
    /// What stands before it, for people.
    pub words: &'static str,
    pub label: &'a Label,
}

/// What to do about an index that is no position.
pub(crate) const NO_SUCH_INDEX: &str =
    "protoc makes no such index: look for it with `protoc --decode`";

/// What to do about a number that another has.
const OTHER_NUMBER: &str = "take another number";

/// What to do about a number that is reserved.
const NOT_RESERVED: &str = "take a number that is not reserved";

/// A kind without a second place.
fn alone(code: &'static str, remedy: &'static str) -> FaultKind<'static>
    ensures { spec.told_kind result ≡ spec.alone code.now remedy.now }
{
    FaultKind {
        code,
        second: None,
        remedy,
    }
}

/// A kind whose second place is that of the first holder.
fn held<'a>(code: &'static str, label: &'a Label, remedy: &'static str) -> FaultKind<'a>
    ensures { spec.told_kind result ≡ spec.held code.now label.now remedy.now }
{
    let words = "first declared at ";
    FaultKind {
        code,
        second: Some(SecondPlace { words, label }),
        remedy,
    }
}

/// A kind whose second place is that of a range.
fn ranged<'a>(code: &'static str, label: &'a Label, remedy: &'static str) -> FaultKind<'a>
    ensures { spec.told_kind result ≡ spec.ranged code.now label.now remedy.now }
{
    let words = "the range is declared at ";
    FaultKind {
        code,
        second: Some(SecondPlace { words, label }),
        remedy,
    }
}

/// What is told of the kind of a fault.
pub(crate) fn fault_kind(fault: &Fault) -> FaultKind<'_>
    ensures { spec.told_kind result ≡ spec.fault_kind fault.now }
{
    match fault {
        Fault::MissingRequiredField { .. } => alone(
            "MissingRequiredField",
            "give the type name: a message, a group or an enum needs one",
        ),
        Fault::UnknownSyntax { .. } => alone(
            "UnknownSyntax",
            "proto2 and proto3 are read; of a file of an edition nothing is",
        ),
        Fault::DuplicateFileName { .. } => alone(
            "DuplicateFileName",
            "the sets have unequal files of that name: give one of them",
        ),
        Fault::FileNotFound { .. } => alone(
            "FileNotFound",
            "give it too, as `protoc --include_imports` does, or under the name that is imported",
        ),
        Fault::InvalidImportIndex => alone("InvalidImportIndex", NO_SUCH_INDEX),
        Fault::InvalidOneofIndex => alone("InvalidOneofIndex", NO_SUCH_INDEX),
        Fault::DuplicateName { first, second, .. } => {
            held("DuplicateName", first, rename_remedy(first, second))
        }
        Fault::DuplicateFieldNumber { first, .. } => {
            held("DuplicateFieldNumber", first, OTHER_NUMBER)
        }
        Fault::DuplicateFieldJsonName { first, .. } => held(
            "DuplicateFieldJsonName",
            first,
            "set another json_name: protoc gives `user_id` and `userId` the same one",
        ),
        Fault::DuplicateFieldCamelCaseName { first, .. } => held(
            "DuplicateFieldCamelCaseName",
            first,
            "rename one: in proto3 names differ by more than case and underscores",
        ),
        Fault::InvalidFieldNumber { .. } => alone(
            "InvalidFieldNumber",
            "take a number from 1 to 536,870,911, but none from 19,000 to 19,999",
        ),
        Fault::FieldNumberInReservedRange { defined, .. } => {
            ranged("FieldNumberInReservedRange", defined, NOT_RESERVED)
        }
        Fault::FieldNumberInExtensionRange { defined, .. } => ranged(
            "FieldNumberInExtensionRange",
            defined,
            "take a number that is not left to extensions",
        ),
        Fault::ExtensionNumberOutOfRange { found, .. } => {
            alone("ExtensionNumberOutOfRange", range_remedy(found))
        }
        Fault::DuplicateExtensionNumber { first, .. } => {
            held("DuplicateExtensionNumber", first, OTHER_NUMBER)
        }
        Fault::NameNotFound { name, found } => {
            alone("NameNotFound", missing_remedy(name.as_str(), found))
        }
        Fault::NameShadowed { .. } => alone(
            "NameShadowed",
            "a nearer scope has its first part: mend it, or write a leading dot and the full name",
        ),
        Fault::InvalidType { defined, .. } => FaultKind {
            code: "InvalidType",
            second: Some(SecondPlace {
                words: "it is declared at ",
                label: defined,
            }),
            remedy: "mend it; where a nearer name hides it, write a leading dot and the full name",
        },
        Fault::InvalidFieldDefault { kind, .. } => {
            alone("InvalidFieldDefault", default_remedy(kind.as_str()))
        }
        Fault::EmptyEnum { .. } => alone("EmptyEnum", "add a value"),
        Fault::InvalidProto3EnumDefault { .. } => alone(
            "InvalidProto3EnumDefault",
            "put the value with the number 0 first",
        ),
        Fault::DuplicateEnumNumber { first, .. } => held(
            "DuplicateEnumNumber",
            first,
            "take another number, or set the option allow_alias",
        ),
        Fault::EnumNumberInReservedRange { defined, .. } => {
            ranged("EnumNumberInReservedRange", defined, NOT_RESERVED)
        }
    }
}

/// The second place of a fault, if its kind has one: of the first holder, of the range, or of what
/// a name means.
pub fn related_label(fault: &Fault) -> Option<&Label>
    ensures { option_copied result ≡ spec.related_label fault.now }
{
    Some(fault_kind(fault).second?.label)
}

/// Whether a fault is of a reference: it tells where the name is declared that isn't found.
pub(crate) fn is_of_reference(fault: &Fault) -> bool
    ensures { result ≡ spec.is_of_reference fault.now }
{
    matches!(
        fault,
        Fault::NameNotFound { .. } | Fault::NameShadowed { .. }
    )
}

/// Whether a number stands so many places before the end of a path.
pub(crate) fn is_at(path: &[i32], places: usize, number: i32) -> bool
    ensures { result ≡ spec.is_at path.now places number }
{
    match path.get(path.len().saturating_sub(places)) {
        Some(found) => *found == number,
        None => false,
    }
}

/// Whether what a path leads to belongs to a declaration of a list: by the number of that list in a
/// file, or else in a message.
fn is_of_list(path: &[i32], of_file: i32, of_message: i32) -> bool
    ensures { result ≡ spec.is_of_list path.now of_file of_message }
{
    let number = if path.len() == 3 { of_file } else { of_message };
    is_at(path, 3, number)
}

/// Whether a path leads to the name of a package.
fn is_of_package(path: &[i32]) -> bool
    ensures { result ≡ spec.is_of_package path.now }
{
    path.len() == 1
}

/// Whether a path leads to the name of a message.
fn is_of_message(path: &[i32]) -> bool
    ensures { result ≡ spec.is_of_message path.now }
{
    is_of_list(path, file::MESSAGE_TYPE, message::NESTED_TYPE)
}

/// Whether a path leads to a part of an extension.
fn is_of_extension(path: &[i32]) -> bool
    ensures { result ≡ spec.is_of_extension path.now }
{
    is_of_list(path, file::EXTENSION, message::EXTENSION)
}

/// Whether a path leads to the name of a oneof.
fn is_of_oneof(path: &[i32]) -> bool
    ensures { result ≡ spec.is_of_oneof path.now }
{
    is_at(path, 3, message::ONEOF_DECL)
}

/// Whether a path leads to the name of a method.
fn is_of_method(path: &[i32]) -> bool
    ensures { result ≡ spec.is_of_method path.now }
{
    path.len() == 5 && is_at(path, 5, file::SERVICE)
}

/// Whether a path leads to the name of a value of an enum, which stands in a file or in a message.
fn is_of_value(path: &[i32]) -> bool
    ensures { result ≡ spec.is_of_value path.now }
{
    if path.len() == 5 {
        return is_at(path, 5, file::ENUM_TYPE) && is_at(path, 3, enum_::VALUE);
    }
    is_at(path, 5, message::ENUM_TYPE) && is_at(path, 3, enum_::VALUE)
}

/// What to do about a name that is declared twice in one file, by the paths of both names.
fn rename_words(first: &[i32], second: &[i32]) -> &'static str
    ensures { result.now ≡ spec.rename_words first.now second.now }
{
    if is_of_value(first) || is_of_value(second) {
        "rename one; begin the name of a value with that of its enum, since values stand beside \
         their enum"
    } else if is_of_oneof(first) || is_of_oneof(second) {
        "rename one: a oneof stands among the fields of its message"
    } else if is_of_method(first) {
        "rename one: a service has one method of a name, whatever it takes"
    } else if is_of_message(first) && is_of_message(second) {
        "rename one: a group makes a message of its name, and a map one whose name ends with \
         `Entry`"
    } else {
        "rename one"
    }
}

/// What to do about a name that is declared twice: by a package and something else, in two files,
/// or in one.
fn rename_remedy(first: &Label, second: &Label) -> &'static str
    ensures { result.now ≡ spec.rename_remedy first.now second.now }
{
    if is_of_package(first.path()) || is_of_package(second.path()) {
        "rename one: a package shares its name with nothing else"
    } else if first.file() == second.file() {
        rename_words(first.path(), second.path())
    } else {
        "rename one; where all names of a file clash, it is given under two names"
    }
}

/// What to do about a default value that is none of a type, by the word for the type.
fn default_remedy(kind: &str) -> &'static str
    ensures { result.now ≡ spec.default_remedy kind.now }
{
    if kind == "message type" {
        "leave it out: a message has no default value"
    } else {
        "write a value of the type"
    }
}

/// What to do about the number of an extension that no extension range has, or of a field that has
/// an extendee.
fn range_remedy(found: &Label) -> &'static str
    ensures { result.now ≡ spec.range_remedy found.now }
{
    if is_at(found.path(), 3, message::FIELD) {
        "leave its extendee out: it is a field, and no extension"
    } else {
        "take a number of an extension range of the message; where it has none, give it one by \
         `extensions`"
    }
}

/// What to do about an empty name.
fn empty_remedy(found: &Label) -> &'static str
    ensures { result.now ≡ spec.empty_remedy found.now }
{
    if is_of_extension(found.path()) {
        "say what it extends: an extension has an extendee"
    } else {
        "give the name: it is empty"
    }
}

/// What to do about a name that nothing has.
fn missing_remedy(name: &str, found: &Label) -> &'static str
    ensures { result.now ≡ spec.missing_remedy name.now found.now }
{
    if name == "" {
        empty_remedy(found)
    } else {
        "mend the name, or give and import the file that declares it"
    }
}
