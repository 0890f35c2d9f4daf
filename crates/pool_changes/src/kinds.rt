//! What changes of an element that both sides tell, and at which level.

ghost use Rattle.std.specs.Prelude.{◌≡◌};
ghost use Rattle.pool_changes.specs.ChangeKinds as spec;

/// How much is asked of a new version. Each level contains the ones before it.
#[derive(Clone, Copy, PartialEq, Debug)]
pub enum Level {
    /// Changes by which bytes are read otherwise, or calls are.
    Wire,
    /// Changes by which texts of JSON are refused or read otherwise.
    Json,
    /// Changes by which code that is made of the schema is another.
    Source,
}

impl Level {
    /// The word for it.
    pub fn word(self) -> &'static str
        ensures { result.now ≡ spec.level_word self }
    {
        match self {
            Level::Wire => "wire",
            Level::Json => "json",
            Level::Source => "source",
        }
    }
}

/// The levels, each before those that contain it.
pub fn levels() -> &'static [Level]
    ensures { result.now ≡ spec.levels }
{
    &[Level::Wire, Level::Json, Level::Source]
}

/// What changes of an element, besides what `WireChangeKind` says of fields.
#[derive(Clone, Copy, PartialEq)]
pub(crate) enum ElementChange {
    ServiceRemoved,
    MethodRemoved,
    /// A method takes a message with another full name.
    MethodInput,
    /// A method gives a message with another full name.
    MethodOutput,
    /// A method takes or gives one message, and it was a stream, or the other way round.
    MethodStreaming,
    /// A message is a message set on the wire, and was not, or the other way round.
    MessageSet,
    FieldRemoved,
    FieldJsonName,
    /// Values of a field have another form in JSON.
    FieldJson,
    /// A field has a list in JSON, and had one value, or the other way round.
    FieldRepeated,
    ValueRemoved,
    /// The number of a value of an enum has other names.
    ValueName,
    FileRemoved,
    MessageRemoved,
    FieldName,
    FieldType,
    FieldPresence,
    FieldOneof,
    FieldDefault,
    OneofRemoved,
    EnumRemoved,
    /// An enum is open, and was closed, or the other way round.
    EnumOpen,
    FilePackage,
    FileSyntax,
    /// An option of a file that names code is another.
    OptionChanged,
}

impl ElementChange {
    /// The name of the kind of change.
    pub(crate) fn code(self) -> &'static str
        ensures { result.now ≡ spec.element_code self }
    {
        match self {
            ElementChange::ServiceRemoved => "service-removed",
            ElementChange::MethodRemoved => "method-removed",
            ElementChange::MethodInput => "method-input",
            ElementChange::MethodOutput => "method-output",
            ElementChange::MethodStreaming => "method-streaming",
            ElementChange::MessageSet => "message-set",
            ElementChange::FieldRemoved => "field-removed",
            ElementChange::FieldJsonName => "field-json-name",
            ElementChange::FieldJson => "field-json",
            ElementChange::FieldRepeated => "field-repeated",
            ElementChange::ValueRemoved => "value-removed",
            ElementChange::ValueName => "value-name",
            ElementChange::FileRemoved => "file-removed",
            ElementChange::MessageRemoved => "message-removed",
            ElementChange::FieldName => "field-name",
            ElementChange::FieldType => "field-type",
            ElementChange::FieldPresence => "field-presence",
            ElementChange::FieldOneof => "field-moved",
            ElementChange::FieldDefault => "field-default",
            ElementChange::OneofRemoved => "oneof-removed",
            ElementChange::EnumRemoved => "enum-removed",
            ElementChange::EnumOpen => "enum-open",
            ElementChange::FilePackage => "file-package",
            ElementChange::FileSyntax => "file-syntax",
            ElementChange::OptionChanged => "option-changed",
        }
    }

    /// What to do about it.
    pub(crate) fn note(self) -> &'static str
        ensures { result.now ≡ spec.element_note self }
    {
        match self {
            ElementChange::ServiceRemoved | ElementChange::MethodRemoved => {
                "a server that lacks it refuses its calls: keep it, and mark it as deprecated"
            }
            ElementChange::MethodInput
            | ElementChange::MethodOutput
            | ElementChange::MethodStreaming => {
                "one side of a call expects another: leave the method, and add a new one"
            }
            ElementChange::MessageSet => "its extensions are encoded otherwise: take a new message",
            ElementChange::FieldRemoved => {
                "a parser of JSON refuses its name: keep it, and mark it as deprecated"
            }
            ElementChange::FieldJsonName => {
                "a parser of JSON refuses the other name: give it the same by json_name"
            }
            ElementChange::FieldJson | ElementChange::FieldRepeated => {
                "a parser of JSON refuses the other form: leave it, and add a new field"
            }
            ElementChange::ValueRemoved | ElementChange::ValueName => {
                "a parser of JSON refuses its name: keep it, if only as an alias"
            }
            ElementChange::FileRemoved => {
                "sources import it: keep it, if only with public imports of other files"
            }
            ElementChange::MessageRemoved => {
                "a reader that asks for its name has none, and a field that held it is compared \
                by itself: keep it, and mark it as deprecated"
            }
            ElementChange::OneofRemoved | ElementChange::EnumRemoved => {
                "code names it: keep it, and mark it as deprecated"
            }
            ElementChange::FieldName => "code names it: leave the name",
            ElementChange::FieldType => "code has values of the other type: leave it",
            ElementChange::FieldPresence
            | ElementChange::FieldOneof
            | ElementChange::FieldDefault
            | ElementChange::EnumOpen => {
                "code goes by what it reads where nothing was written: leave it"
            }
            ElementChange::FilePackage | ElementChange::FileSyntax | ElementChange::OptionChanged =>
                { "code that is made of the file is another: leave it" }
        }
    }
}
