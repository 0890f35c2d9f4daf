//! Options of files that name code, read of their bytes.

ghost use Rattle.std.specs.Prelude.{◌≡◌, ◌++◌, OnOk};
ghost use Rattle.std.specs.List.{flat_map};
ghost use Rattle.std.specs.Option.{option_copied};
ghost use Rattle.wire_format.specs.Reading.{Reads};
ghost use Rattle.wire_format.specs.Tokens.{value_seen};
ghost use Rattle.pool_changes.specs.Options as spec;
ghost use Rattle.pool_changes.specs.Sides.{side, versions};

use crate::kinds::ElementChange;
use crate::removed::KeptFile;
use crate::sides::{Side, Telling, file_told};
use descriptor_pool::DescriptorPool;
use plain_data::Items;
use pool_types::FileDescriptorInner;
use proto_types::FileDescriptorProto;
use std::alloc::AllocError;
use std::str;
use verdict_texts::ToldFault;
use wire_format::{Value, WireFault, next_field};

/// How many levels of groups may lie in the bytes of options.
const LEVELS: u32 = 100;

/// An option of a file by which code that is made of it has its names or its form.
#[derive(Clone, Copy)]
pub(crate) enum CodeOption {
    JavaPackage,
    JavaOuterClassname,
    JavaMultipleFiles,
    GoPackage,
    CcGenericServices,
    JavaGenericServices,
    PyGenericServices,
    ObjcClassPrefix,
    CsharpNamespace,
    SwiftPrefix,
    PhpClassPrefix,
    PhpNamespace,
    PhpGenericServices,
    PhpMetadataNamespace,
    RubyPackage,
}

/// The options, in the order of their numbers.
#[tactic(auto, unfolding(crate::specs::Options::code_options))]
fn code_options() -> &'static [CodeOption]
    ensures { result.now ≡ spec.code_options }
{
    &[
        CodeOption::JavaPackage,
        CodeOption::JavaOuterClassname,
        CodeOption::JavaMultipleFiles,
        CodeOption::GoPackage,
        CodeOption::CcGenericServices,
        CodeOption::JavaGenericServices,
        CodeOption::PyGenericServices,
        CodeOption::ObjcClassPrefix,
        CodeOption::CsharpNamespace,
        CodeOption::SwiftPrefix,
        CodeOption::PhpClassPrefix,
        CodeOption::PhpNamespace,
        CodeOption::PhpGenericServices,
        CodeOption::PhpMetadataNamespace,
        CodeOption::RubyPackage,
    ]
}

impl CodeOption {
    /// The number of the option.
    fn number(self) -> u32
        ensures { result ≡ spec.option_number self }
    {
        match self {
            CodeOption::JavaPackage => 1,
            CodeOption::JavaOuterClassname => 8,
            CodeOption::JavaMultipleFiles => 10,
            CodeOption::GoPackage => 11,
            CodeOption::CcGenericServices => 16,
            CodeOption::JavaGenericServices => 17,
            CodeOption::PyGenericServices => 18,
            CodeOption::ObjcClassPrefix => 36,
            CodeOption::CsharpNamespace => 37,
            CodeOption::SwiftPrefix => 39,
            CodeOption::PhpClassPrefix => 40,
            CodeOption::PhpNamespace => 41,
            CodeOption::PhpGenericServices => 42,
            CodeOption::PhpMetadataNamespace => 44,
            CodeOption::RubyPackage => 45,
        }
    }

    /// Whether its value is a text; else it is a truth value.
    fn is_text(self) -> bool
        ensures { result ≡ spec.is_text self }
    {
        !matches!(
            self,
            CodeOption::JavaMultipleFiles
                | CodeOption::CcGenericServices
                | CodeOption::JavaGenericServices
                | CodeOption::PyGenericServices
                | CodeOption::PhpGenericServices
        )
    }

    /// The words for the option where it is given: a text stands behind them.
    fn given_words(self) -> &'static str
        ensures { result.now ≡ spec.given_words self }
    {
        match self {
            CodeOption::JavaPackage => "java_package ",
            CodeOption::JavaOuterClassname => "java_outer_classname ",
            CodeOption::JavaMultipleFiles => "java_multiple_files",
            CodeOption::GoPackage => "go_package ",
            CodeOption::CcGenericServices => "cc_generic_services",
            CodeOption::JavaGenericServices => "java_generic_services",
            CodeOption::PyGenericServices => "py_generic_services",
            CodeOption::ObjcClassPrefix => "objc_class_prefix ",
            CodeOption::CsharpNamespace => "csharp_namespace ",
            CodeOption::SwiftPrefix => "swift_prefix ",
            CodeOption::PhpClassPrefix => "php_class_prefix ",
            CodeOption::PhpNamespace => "php_namespace ",
            CodeOption::PhpGenericServices => "php_generic_services",
            CodeOption::PhpMetadataNamespace => "php_metadata_namespace ",
            CodeOption::RubyPackage => "ruby_package ",
        }
    }

    /// The words for the option where it is not given, or is false.
    fn missing_words(self) -> &'static str
        ensures { result.now ≡ spec.missing_words self }
    {
        match self {
            CodeOption::JavaPackage => "no java_package",
            CodeOption::JavaOuterClassname => "no java_outer_classname",
            CodeOption::JavaMultipleFiles => "no java_multiple_files",
            CodeOption::GoPackage => "no go_package",
            CodeOption::CcGenericServices => "no cc_generic_services",
            CodeOption::JavaGenericServices => "no java_generic_services",
            CodeOption::PyGenericServices => "no py_generic_services",
            CodeOption::ObjcClassPrefix => "no objc_class_prefix",
            CodeOption::CsharpNamespace => "no csharp_namespace",
            CodeOption::SwiftPrefix => "no swift_prefix",
            CodeOption::PhpClassPrefix => "no php_class_prefix",
            CodeOption::PhpNamespace => "no php_namespace",
            CodeOption::PhpGenericServices => "no php_generic_services",
            CodeOption::PhpMetadataNamespace => "no php_metadata_namespace",
            CodeOption::RubyPackage => "no ruby_package",
        }
    }
}

/// What a value makes of a text that was read so far: its bytes count.
fn merged_text<'a>(value: Value<'a>, part: Option<&'a [u8]>) -> Option<&'a [u8]>
    ensures { option_copied result
        ≡ spec.text_merged (value_seen value.entry) (option_copied part.entry) }
{
    match value {
        Value::Len(bytes, _) => Some(bytes),
        _ => part,
    }
}

/// What a value makes of a truth value that was read so far: a true one is no bytes.
fn merged_flag<'a>(value: Value<'a>, part: Option<&'a [u8]>) -> Option<&'a [u8]>
    ensures { option_copied result
        ≡ spec.flag_merged (value_seen value.entry) (option_copied part.entry) }
{
    match value {
        Value::Varint(number) => { if number == 0 { None } else { Some(&[]) } }
        _ => part,
    }
}

/// What a value makes of an option that was read so far.
fn merged<'a>(is_text: bool, value: Value<'a>, part: Option<&'a [u8]>) -> Option<&'a [u8]>
    ensures { option_copied result
        ≡ spec.option_merged is_text (value_seen value.entry) (option_copied part.entry) }
{
    if is_text {
        merged_text(value, part)
    } else {
        merged_flag(value, part)
    }
}

/// The bytes of the last value of an option in the bytes of options.
#[tactic(auto, unfolding(crate::specs::Options::value_merged))]
fn last_value(option: CodeOption, bytes: &[u8]) -> Result<Option<&[u8]>, WireFault>
    ensures { Reads option_copied result (spec.option_of option bytes.now) }
{
    let mut part = None;
    let mut rest = bytes;
    while let Some((field, after)) = next_field(LEVELS, bytes.len(), rest)? {
        if field.number == option.number() {
            part = merged(option.is_text(), field.value, part);
        }
        rest = after;
    }
    Ok(part)
}

/// Bytes as a text, if they are one.
fn as_text(bytes: &[u8]) -> Option<&str>
    ensures { option_copied result ≡ spec.as_text bytes.now }
{
    match str::from_utf8(bytes) {
        Ok(text) => Some(text),
        Err(_) => None,
    }
}

/// The text of an option in the bytes of options, if it is given.
fn option_text(option: CodeOption, bytes: &[u8]) -> Option<&str>
    ensures { option_copied result ≡ spec.text_read (spec.option_of option bytes.now) }
{
    match last_value(option, bytes) {
        Ok(Some(value)) => as_text(value),
        Ok(None) | Err(_) => None,
    }
}

/// The bytes of the options of a file.
fn encoded_options(file: &FileDescriptorProto) -> &[u8]
    ensures { result.now ≡ spec.encoded_options file.now }
{
    match &file.options {
        Some(options) => options.encoded.as_slice(),
        None => &[],
    }
}

/// An option of a file, as a side.
fn option_side<'a>(
    pool: &DescriptorPool,
    file: &'a FileDescriptorInner,
    option: CodeOption,
) -> Side<'a>
    ensures { side result ≡ spec.option_side pool.now file.now option }
{
    match option_text(option, encoded_options(&file.raw)) {
        Some(text) => file_told(pool, file, option.given_words(), text),
        None => file_told(pool, file, option.missing_words(), ""),
    }
}

impl Telling<'_> {
    /// Appends what changes of an option of two files.
    fn tell_option(
        self,
        told: &mut Items<ToldFault>,
        files: KeptFile<'_>,
        option: CodeOption,
    ) -> Result<(), AllocError>
        ensures { OnOk result (told.new ≡ told.old ++ spec.option_changes
            (versions self.entry) files.entry.before.now files.entry.after.now option) }
    {
        let before = option_side(self.writer(), files.before, option);
        let after = option_side(self.reader(), files.after, option);
        self.tell_differing(told, ElementChange::OptionChanged.between(before, after))
    }

    /// Appends what changes of each option of two files.
    fn tell_each_option(
        self,
        told: &mut Items<ToldFault>,
        files: KeptFile<'_>,
    ) -> Result<(), AllocError>
        ensures { OnOk result (told.new ≡ told.old ++ flat_map (spec.option_changes
            (versions self.entry) files.entry.before.now files.entry.after.now)
            spec.code_options) }
    {
        for option in code_options() {
            self.tell_option(told, files, *option)?;
        }
        Ok(())
    }

    /// Appends what changes of the options of two files, if the bytes of the options differ.
    pub(crate) fn tell_options(
        self,
        told: &mut Items<ToldFault>,
        files: KeptFile<'_>,
    ) -> Result<(), AllocError>
        ensures { OnOk result (told.new ≡ told.old ++ spec.options_changes
            (versions self.entry) files.entry.before.now files.entry.after.now) }
    {
        if encoded_options(&files.before.raw) == encoded_options(&files.after.raw) {
            return Ok(());
        }
        self.tell_each_option(told, files)
    }
}
