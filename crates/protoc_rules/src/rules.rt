//! What is told of each rule, a row for each.

ghost use Rattle.std.specs.Prelude.{◌≡◌};
ghost use Rattle.protoc_rules.specs.Rules as spec;

use crate::StrictKind;

/// What is told of a broken rule.
#[derive(Clone, Copy)]
pub(crate) struct StrictRule {
    /// Its name.
    pub code: &'static str,
    /// What stands behind the name of what breaks it.
    pub text: &'static str,
    /// What stands before the second place, if it has one, for people.
    pub second: &'static str,
    /// What to do, for people.
    pub remedy: &'static str,
}

/// What to do about a type name that means something else than when its file was built.
const BUILD_AGAIN: &str =
    "where the file was built against another version of what it imports, build both again";

/// A rule without a second place.
fn alone(code: &'static str, text: &'static str, remedy: &'static str) -> StrictRule
    ensures { spec.told_rule result ≡ spec.alone code.now text.now remedy.now }
{
    StrictRule {
        code,
        text,
        second: "",
        remedy,
    }
}

/// What is told of the rule that is broken.
pub(crate) fn strict_rule(kind: StrictKind) -> StrictRule
    ensures { spec.told_rule result ≡ spec.strict_rule kind }
{
    match kind {
        StrictKind::MissingFileName => alone(
            "MissingFileName",
            "is no name of a file",
            "give the file a name",
        ),
        StrictKind::ImportCycle => alone(
            "ImportCycle",
            "imports itself or a file that does, directly or through other files",
            "leave out an import of the cycle; what two files both need can stand in a third",
        ),
        StrictKind::DuplicateImport => StrictRule {
            code: "DuplicateImport",
            text: "imports a file twice",
            second: "first imported at ",
            remedy: "leave one of the imports out",
        },
        StrictKind::InvalidName => alone(
            "InvalidName",
            "has a name that is no identifier",
            "take ASCII letters, digits and underscores",
        ),
        StrictKind::InvalidPackage => alone(
            "InvalidPackage",
            "is in a package with a part that is no identifier",
            "take ASCII letters, digits and underscores, and one dot between two parts",
        ),
        StrictKind::DeepPackage => alone(
            "DeepPackage",
            "is in a package of more than 101 parts",
            "take fewer parts",
        ),
        StrictKind::DeepMessage => alone(
            "DeepMessage",
            "stands in 31 other messages",
            "take it out of some of them",
        ),
        StrictKind::TypeNameOfScalar => alone(
            "TypeNameOfScalar",
            "has a type name, and the type of a number or a text",
            "leave one of the two out",
        ),
        StrictKind::NotAMessageType => alone(
            "NotAMessageType",
            "is written as a message, and its type name means an enum",
            BUILD_AGAIN,
        ),
        StrictKind::NotAnEnumType => alone(
            "NotAnEnumType",
            "is written as an enum, and its type name means a message",
            BUILD_AGAIN,
        ),
        StrictKind::RequiredInProto3 => alone(
            "RequiredInProto3",
            "is required, in proto3",
            "leave `required` out: fields of proto3 are optional or repeated",
        ),
        StrictKind::DefaultInProto3 => alone(
            "DefaultInProto3",
            "has a default, in proto3",
            "leave it out: fields of proto3 have the default of their type",
        ),
        StrictKind::GroupInProto3 => alone(
            "GroupInProto3",
            "is a group, in proto3",
            "take a field of a nested message, with a new number: it is written otherwise",
        ),
        StrictKind::ClosedEnumInProto3 => alone(
            "ClosedEnumInProto3",
            "has an enum of proto2 as its type, in proto3",
            "take an enum of a file of proto3",
        ),
        StrictKind::RepeatedDefault => alone(
            "RepeatedDefault",
            "is repeated, and has a default",
            "leave the default out",
        ),
        StrictKind::PackedField => alone(
            "PackedField",
            "is packed, and no list of numbers, truth values or enums",
            "leave `packed` out",
        ),
        StrictKind::Proto3OptionalInProto2 => alone(
            "Proto3OptionalInProto2",
            "has proto3_optional, in proto2",
            "leave it out: protoc sets it of fields of proto3 alone",
        ),
        StrictKind::Proto3OptionalOneof => alone(
            "Proto3OptionalOneof",
            "has proto3_optional, and no oneof for itself",
            "give it a oneof that has no other field, as protoc does",
        ),
        StrictKind::OneofFieldLabel => alone(
            "OneofFieldLabel",
            "stands in a oneof, and is required or repeated",
            "leave the label out, or take it out of the oneof",
        ),
        StrictKind::FieldExtendee => alone(
            "FieldExtendee",
            "names a message that it extends, and is no extension",
            "leave the extendee out",
        ),
        StrictKind::MapEntry => alone(
            "MapEntry",
            "is of the entry of a map, which is not made as its own",
            "declare it as `map<KEY, VALUE>`, which makes its entry",
        ),
        StrictKind::MapKeyType => alone(
            "MapKeyType",
            "is a map whose keys are neither whole numbers nor truth values nor strings",
            "take keys of one of these types",
        ),
        StrictKind::MapEnumValue => alone(
            "MapEnumValue",
            "is a map whose values are of an enum that does not begin with 0",
            "put the value of the enum with the number 0 first",
        ),
        StrictKind::MessageSetField => alone(
            "MessageSetField",
            "is a field of a message set",
            "declare it as an extension: a message set has no fields",
        ),
        StrictKind::MessageSetExtension => alone(
            "MessageSetExtension",
            "extends a message set, and is no optional message",
            "make it an optional field of a message",
        ),
        StrictKind::RequiredExtension => alone(
            "RequiredExtension",
            "is a required extension",
            "make it optional",
        ),
        StrictKind::ExtensionOneof => alone(
            "ExtensionOneof",
            "is an extension, and has an index of a oneof",
            "leave the index out",
        ),
        StrictKind::ExtensionJsonName => alone(
            "ExtensionJsonName",
            "is an extension, and has a JSON name that is not made of its name",
            "leave the JSON name out",
        ),
        StrictKind::ExtensionInProto3 => alone(
            "ExtensionInProto3",
            "extends what is no message of options, in proto3",
            "declare it in a file of proto2",
        ),
        StrictKind::EmptyOneof => alone(
            "EmptyOneof",
            "is a oneof without a field",
            "give it a field, or leave it out",
        ),
        StrictKind::ScatteredOneof => alone(
            "ScatteredOneof",
            "is a oneof whose fields do not stand together",
            "put its fields one behind another",
        ),
        StrictKind::LateOneof => alone(
            "LateOneof",
            "is a oneof behind one that is made for an optional field",
            "put the oneofs of optional fields behind all others",
        ),
        StrictKind::ClashingValues => StrictRule {
            code: "ClashingValues",
            text: "has two values whose names are one without the enum's name and in one case",
            second: "the other one is declared at ",
            remedy: "rename one, or give both one number",
        },
        StrictKind::ExtensionRangesInProto3 => alone(
            "ExtensionRangesInProto3",
            "has extension ranges, in proto3",
            "leave them out, or declare the message in a file of proto2",
        ),
        StrictKind::MessageSetInProto3 => alone(
            "MessageSetInProto3",
            "is a message set, in proto3",
            "declare it in a file of proto2",
        ),
        StrictKind::RangeNotPositive => alone(
            "RangeNotPositive",
            "has a range that begins at 0 or below",
            "begin it at 1 or above",
        ),
        StrictKind::EmptyRange => alone(
            "EmptyRange",
            "has a range that ends before it begins",
            "write the lower number first",
        ),
        StrictKind::RangePastMaximum => alone(
            "RangePastMaximum",
            "has an extension range that goes past 536,870,911",
            "end it there, as `max` does",
        ),
        StrictKind::RangesOverlap => StrictRule {
            code: "RangesOverlap",
            text: "has two ranges with a number in common",
            second: "the other one is declared at ",
            remedy: "part them, or make one of both",
        },
        StrictKind::DuplicateReservedName => StrictRule {
            code: "DuplicateReservedName",
            text: "reserves a name twice",
            second: "first reserved at ",
            remedy: "leave one out",
        },
        StrictKind::ReservedName => StrictRule {
            code: "ReservedName",
            text: "has a field or a value with a reserved name",
            second: "it is reserved at ",
            remedy: "take another name",
        },
    }
}
