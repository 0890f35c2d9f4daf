//! The kinds of changes, as a log of SARIF lists them.

/// The beginning of a log of SARIF: the program with its version and the kinds of changes, each
/// with what it says, what to do, and its level as a tag. They stand in the order of the levels.
pub const CHANGE_RULES: &str = "\
{\"$schema\":\"https://json.schemastore.org/sarif-2.1.0.json\",\"version\":\"2.1.0\",\
\"runs\":[{\"tool\":{\"driver\":{\"name\":\"check_descriptors\",\"version\":\"0.3.0\",\"rules\":[\
{\"id\":\"field-kind\",\
\"shortDescription\":{\"text\":\"A value of a field is read otherwise, or is refused.\"},\
\"help\":{\"text\":\"Take a new number, and reserve the old one.\"},\
\"properties\":{\"tags\":[\"wire\"]}}\
,{\"id\":\"field-cardinality\",\
\"shortDescription\":{\"text\":\"A field is repeated and was not, or was and is no more.\"},\
\"help\":{\"text\":\"Take a new number, and reserve the old one.\"},\
\"properties\":{\"tags\":[\"wire\"]}}\
,{\"id\":\"field-oneof\",\
\"shortDescription\":{\"text\":\"Two fields of a writer are in one oneof of a reader alone.\"},\
\"help\":{\"text\":\"Leave them where they are.\"},\
\"properties\":{\"tags\":[\"wire\"]}}\
,{\"id\":\"field-required\",\
\"shortDescription\":{\"text\":\"A reader requires a field that a writer may leave out.\"},\
\"help\":{\"text\":\"Make it optional.\"},\
\"properties\":{\"tags\":[\"wire\"]}}\
,{\"id\":\"number-free\",\
\"shortDescription\":{\"text\":\"A field is gone, and its number is not reserved.\"},\
\"help\":{\"text\":\"Reserve the number.\"},\
\"properties\":{\"tags\":[\"wire\"]}}\
,{\"id\":\"reserved-removed\",\
\"shortDescription\":{\"text\":\"A number that was reserved is so no more, or has a field.\"},\
\"help\":{\"text\":\"Keep it reserved.\"},\
\"properties\":{\"tags\":[\"wire\"]}}\
,{\"id\":\"message-removed\",\
\"shortDescription\":{\"text\":\"A message is gone.\"},\
\"help\":{\"text\":\"Keep it, and mark it as deprecated.\"},\
\"properties\":{\"tags\":[\"wire\"]}}\
,{\"id\":\"message-set\",\
\"shortDescription\":{\"text\":\"One version of a message is a message set on the wire, and the \
other is not.\"},\
\"help\":{\"text\":\"Take a new message.\"},\
\"properties\":{\"tags\":[\"wire\"]}}\
,{\"id\":\"service-removed\",\
\"shortDescription\":{\"text\":\"A service is gone.\"},\
\"help\":{\"text\":\"Keep it, and mark it as deprecated.\"},\
\"properties\":{\"tags\":[\"wire\"]}}\
,{\"id\":\"method-removed\",\
\"shortDescription\":{\"text\":\"A method is gone.\"},\
\"help\":{\"text\":\"Keep it, and mark it as deprecated.\"},\
\"properties\":{\"tags\":[\"wire\"]}}\
,{\"id\":\"method-input\",\
\"shortDescription\":{\"text\":\"A method takes another message.\"},\
\"help\":{\"text\":\"Leave the method, and add a new one.\"},\
\"properties\":{\"tags\":[\"wire\"]}}\
,{\"id\":\"method-output\",\
\"shortDescription\":{\"text\":\"A method gives another message.\"},\
\"help\":{\"text\":\"Leave the method, and add a new one.\"},\
\"properties\":{\"tags\":[\"wire\"]}}\
,{\"id\":\"method-streaming\",\
\"shortDescription\":{\"text\":\"A method streams otherwise.\"},\
\"help\":{\"text\":\"Leave the method, and add a new one.\"},\
\"properties\":{\"tags\":[\"wire\"]}}\
,{\"id\":\"field-removed\",\
\"shortDescription\":{\"text\":\"A field is gone, and its number is kept free.\"},\
\"help\":{\"text\":\"Keep it, and mark it as deprecated.\"},\
\"properties\":{\"tags\":[\"json\"]}}\
,{\"id\":\"field-json-name\",\
\"shortDescription\":{\"text\":\"A field has another name in JSON.\"},\
\"help\":{\"text\":\"Give it the same by json_name.\"},\
\"properties\":{\"tags\":[\"json\"]}}\
,{\"id\":\"field-json\",\
\"shortDescription\":{\"text\":\"The values of a field have another form in JSON.\"},\
\"help\":{\"text\":\"Leave it, and add a new field.\"},\
\"properties\":{\"tags\":[\"json\"]}}\
,{\"id\":\"field-repeated\",\
\"shortDescription\":{\"text\":\"A field is a list in JSON and was not, or was and is no more.\"},\
\"help\":{\"text\":\"Leave it, and add a new field.\"},\
\"properties\":{\"tags\":[\"json\"]}}\
,{\"id\":\"value-removed\",\
\"shortDescription\":{\"text\":\"A value of an enum is gone.\"},\
\"help\":{\"text\":\"Keep it, if only as an alias.\"},\
\"properties\":{\"tags\":[\"json\"]}}\
,{\"id\":\"value-name\",\
\"shortDescription\":{\"text\":\"A value of an enum has another name.\"},\
\"help\":{\"text\":\"Keep the name, if only as an alias.\"},\
\"properties\":{\"tags\":[\"json\"]}}\
,{\"id\":\"file-removed\",\
\"shortDescription\":{\"text\":\"A file is gone.\"},\
\"help\":{\"text\":\"Keep it, if only with public imports of other files.\"},\
\"properties\":{\"tags\":[\"source\"]}}\
,{\"id\":\"file-package\",\
\"shortDescription\":{\"text\":\"A file has another package.\"},\
\"help\":{\"text\":\"Leave it.\"},\
\"properties\":{\"tags\":[\"source\"]}}\
,{\"id\":\"file-syntax\",\
\"shortDescription\":{\"text\":\"A file has another syntax.\"},\
\"help\":{\"text\":\"Leave it.\"},\
\"properties\":{\"tags\":[\"source\"]}}\
,{\"id\":\"option-changed\",\
\"shortDescription\":{\"text\":\"An option of a file that names code is another.\"},\
\"help\":{\"text\":\"Leave it.\"},\
\"properties\":{\"tags\":[\"source\"]}}\
,{\"id\":\"enum-removed\",\
\"shortDescription\":{\"text\":\"An enum is gone.\"},\
\"help\":{\"text\":\"Keep it, and mark it as deprecated.\"},\
\"properties\":{\"tags\":[\"source\"]}}\
,{\"id\":\"field-name\",\
\"shortDescription\":{\"text\":\"A field has another name.\"},\
\"help\":{\"text\":\"Leave the name.\"},\
\"properties\":{\"tags\":[\"source\"]}}\
,{\"id\":\"field-type\",\
\"shortDescription\":{\"text\":\"A field has another type, and neither bytes nor JSON are read \
otherwise.\"},\
\"help\":{\"text\":\"Leave it.\"},\
\"properties\":{\"tags\":[\"source\"]}}\
,{\"id\":\"field-presence\",\
\"shortDescription\":{\"text\":\"A field tells its presence otherwise.\"},\
\"help\":{\"text\":\"Leave it.\"},\
\"properties\":{\"tags\":[\"source\"]}}\
,{\"id\":\"field-moved\",\
\"shortDescription\":{\"text\":\"A field is in another oneof, or in none.\"},\
\"help\":{\"text\":\"Leave it.\"},\
\"properties\":{\"tags\":[\"source\"]}}\
,{\"id\":\"field-default\",\
\"shortDescription\":{\"text\":\"A field has another default value.\"},\
\"help\":{\"text\":\"Leave it.\"},\
\"properties\":{\"tags\":[\"source\"]}}\
,{\"id\":\"oneof-removed\",\
\"shortDescription\":{\"text\":\"A oneof is gone.\"},\
\"help\":{\"text\":\"Keep it, and mark it as deprecated.\"},\
\"properties\":{\"tags\":[\"source\"]}}\
,{\"id\":\"enum-open\",\
\"shortDescription\":{\"text\":\"An enum is open and was closed, or the other way round.\"},\
\"help\":{\"text\":\"Leave it.\"},\
\"properties\":{\"tags\":[\"source\"]}}\
]}}";
