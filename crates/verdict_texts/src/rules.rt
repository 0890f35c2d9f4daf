//! The rules, as a log of SARIF lists them.

/// The beginning of a log of SARIF: the program with its version and its rules, each with what it
/// says and what to do. The kinds of faults stand in the order of the pages.
pub const RULES: &str = "\
{\"$schema\":\"https://json.schemastore.org/sarif-2.1.0.json\",\"version\":\"2.1.0\",\
\"runs\":[{\"tool\":{\"driver\":{\"name\":\"check_descriptors\",\"version\":\"0.3.0\",\"rules\":[\
{\"id\":\"UnequalFile\",\
\"shortDescription\":{\"text\":\"Sets have unequal files of one name.\"},\
\"help\":{\"text\":\"Give one of them.\"}}\
,{\"id\":\"UnknownSyntax\",\
\"shortDescription\":{\"text\":\"The syntax of a file is not known.\"},\
\"help\":{\"text\":\"proto2 and proto3 are read; of a file of an edition nothing is.\"}}\
,{\"id\":\"DuplicateFileName\",\
\"shortDescription\":{\"text\":\"Two unequal files have one name.\"},\
\"help\":{\"text\":\"Give one of them.\"}}\
,{\"id\":\"DuplicateName\",\
\"shortDescription\":{\"text\":\"A name is defined twice.\"},\
\"help\":{\"text\":\"Rename one. Values of an enum stand beside it, so begin their names \
with its own.\"}}\
,{\"id\":\"DuplicateFieldCamelCaseName\",\
\"shortDescription\":{\"text\":\"Two fields of proto3 differ by case or underscores alone.\"},\
\"help\":{\"text\":\"Rename one.\"}}\
,{\"id\":\"EmptyEnum\",\
\"shortDescription\":{\"text\":\"An enum has no value.\"},\
\"help\":{\"text\":\"Add a value.\"}}\
,{\"id\":\"InvalidProto3EnumDefault\",\
\"shortDescription\":{\"text\":\"The first value of an enum of proto3 is not 0.\"},\
\"help\":{\"text\":\"Put the value with the number 0 first.\"}}\
,{\"id\":\"FileNotFound\",\
\"shortDescription\":{\"text\":\"An imported file is missing.\"},\
\"help\":{\"text\":\"Give it too, as protoc --include_imports does, or under the name \
that is imported.\"}}\
,{\"id\":\"InvalidImportIndex\",\
\"shortDescription\":{\"text\":\"An index of an import is no position.\"},\
\"help\":{\"text\":\"protoc makes no such index: look for it with protoc --decode.\"}}\
,{\"id\":\"InvalidFieldNumber\",\
\"shortDescription\":{\"text\":\"A field has a number that no field can have.\"},\
\"help\":{\"text\":\"Take a number from 1 to 536,870,911, but none from 19,000 to 19,999.\"}}\
,{\"id\":\"FieldNumberInReservedRange\",\
\"shortDescription\":{\"text\":\"A field has a reserved number.\"},\
\"help\":{\"text\":\"Take a number that is not reserved.\"}}\
,{\"id\":\"FieldNumberInExtensionRange\",\
\"shortDescription\":{\"text\":\"A field has a number that is left to extensions.\"},\
\"help\":{\"text\":\"Take a number that is not left to extensions.\"}}\
,{\"id\":\"ExtensionNumberOutOfRange\",\
\"shortDescription\":{\"text\":\"An extension has a number that its message does not \
leave to extensions.\"},\
\"help\":{\"text\":\"Take a number of one of the extension ranges of the message.\"}}\
,{\"id\":\"DuplicateExtensionNumber\",\
\"shortDescription\":{\"text\":\"Two extensions of a message have one number.\"},\
\"help\":{\"text\":\"Take another number.\"}}\
,{\"id\":\"MissingRequiredField\",\
\"shortDescription\":{\"text\":\"A type name is missing.\"},\
\"help\":{\"text\":\"Give the type name: a message, a group or an enum needs one.\"}}\
,{\"id\":\"NameNotFound\",\
\"shortDescription\":{\"text\":\"A name is not defined.\"},\
\"help\":{\"text\":\"Mend the name, or give and import the file that declares it.\"}}\
,{\"id\":\"NameShadowed\",\
\"shortDescription\":{\"text\":\"A name resolves to one that is not defined.\"},\
\"help\":{\"text\":\"A nearer scope has its first part: mend it, or write a leading dot \
and the full name.\"}}\
,{\"id\":\"InvalidType\",\
\"shortDescription\":{\"text\":\"A name means something of another kind.\"},\
\"help\":{\"text\":\"Mend it; where a nearer name hides it, write a leading dot and the \
full name.\"}}\
,{\"id\":\"InvalidFieldDefault\",\
\"shortDescription\":{\"text\":\"A default value is none of its type.\"},\
\"help\":{\"text\":\"Write a value of the type.\"}}\
,{\"id\":\"InvalidOneofIndex\",\
\"shortDescription\":{\"text\":\"An index of a oneof is no position.\"},\
\"help\":{\"text\":\"protoc makes no such index: look for it with protoc --decode.\"}}\
,{\"id\":\"DuplicateFieldNumber\",\
\"shortDescription\":{\"text\":\"Two fields of a message have one number.\"},\
\"help\":{\"text\":\"Take another number.\"}}\
,{\"id\":\"DuplicateFieldJsonName\",\
\"shortDescription\":{\"text\":\"Two fields of a message have one JSON name.\"},\
\"help\":{\"text\":\"Set another json_name: protoc gives user_id and userId the same one.\"}}\
,{\"id\":\"EnumNumberInReservedRange\",\
\"shortDescription\":{\"text\":\"A value of an enum has a reserved number.\"},\
\"help\":{\"text\":\"Take a number that is not reserved.\"}}\
,{\"id\":\"DuplicateEnumNumber\",\
\"shortDescription\":{\"text\":\"Two values of an enum have one number.\"},\
\"help\":{\"text\":\"Take another number, or set the option allow_alias.\"}}\
,{\"id\":\"TooMany\",\
\"shortDescription\":{\"text\":\"There is more of a kind than a pool has room for.\"},\
\"help\":{\"text\":\"Give fewer files at once.\"}}\
,{\"id\":\"NoVerdict\",\
\"shortDescription\":{\"text\":\"There is no verdict.\"},\
\"help\":{\"text\":\"Give descriptor sets, as protoc writes them.\"}}\
]}}";
