//! The lines that the commands of a script answer, of what they found.

ghost use Rattle.std.specs.Prelude.{◌≡◌, ◌<◌, ◌+◌, ◌++◌, IsOk, OnOk, OnErr, length, map};
ghost use Rattle.std.specs.Prelude.{string_bytes, string_len, string_capacity};
ghost use Rattle.std.specs.List.{find};
ghost use Rattle.std.specs.Option.{option_copied};
ghost use Rattle.std.specs.Str.{bytes_eq};
ghost use Rattle.proto_types.specs.Readers.{text_of};
ghost use Rattle.record_walk.specs.Counts.{no_counts};
ghost use Rattle.record_walk.specs.Fits.{counts_with};
ghost use Rattle.record_lists.specs.Code.{reference_of};
ghost use Rattle.descriptor_linker.specs.Report.Lines as spec;

use link_script::ScriptFault;
use pool_faults::{DescriptorErrorKind, Labelled};
use pool_types::{Definition, DefinitionKind, FileDescriptorInner};
use record_lists::{Lister, Reference, references};
use record_walk::{CountKind, Counts, Declaration, alone, count_word, declared_word, walk};
use std::alloc::{AllocError, Global};
use std::fmt;

/// A kind, with the index that it holds.
#[derive(Clone, Copy)]
struct KindWords(DefinitionKind);

impl fmt::Display for KindWords {
    ghost use Rattle.std.specs.Prelude.{Some};
    ghost use Rattle.descriptor_linker.specs.Report.Lines.{kind_words};

    ghost output = { λ kind. Some (kind_words kind.0) };

    fn fmt<W: fmt::Write>(&self, f: &mut fmt::Formatter<W>) -> fmt::Result {
        match self.0 {
            DefinitionKind::Package => write!(f, "package"),
            DefinitionKind::Message(index) => write!(f, "message {index}"),
            DefinitionKind::Field(message) => write!(f, "field {message}"),
            DefinitionKind::Oneof(message) => write!(f, "oneof {message}"),
            DefinitionKind::Service(index) => write!(f, "service {index}"),
            DefinitionKind::Method(service) => write!(f, "method {service}"),
            DefinitionKind::Enum(index) => write!(f, "enum {index}"),
            DefinitionKind::EnumValue(index) => write!(f, "value {index}"),
            DefinitionKind::Extension(index) => write!(f, "extension {index}"),
        }
    }
}

/// Tells how much there is of each kind.
///
/// # Errors
/// `AllocError` where memory was refused.
pub fn write_counts(report: &mut String, counts: Counts) -> Result<(), AllocError>
    ensures { OnOk result (string_bytes report.new ≡ string_bytes report.old
        ++ spec.counts_line counts) }
{
    let Counts {
        files,
        messages,
        enums,
        services,
        extensions,
    } = counts;
    writeln!(
        report,
        "ok {files} {messages} {enums} {services} {extensions}"
    )
}

/// Tells what there is too much of.
///
/// # Errors
/// `AllocError` where memory was refused, and the report has no room for the line.
pub fn write_too_many(report: &mut String, kind: CountKind) -> Result<(), AllocError>
    ensures line { OnOk result (string_bytes report.new ≡ string_bytes report.old
        ++ spec.too_many_line kind) }
    ensures full { OnErr result (string_capacity report.old
        < string_len report.old + length (spec.too_many_line kind)) }
{
    let word = count_word(kind);
    report.reserve("too many ".len() + word.len() + 1)?;
    report.push_str("too many ")?;
    report.push_str(word)?;
    report.push('\n')
}

/// Tells how many faults there are, and each on a line of its own.
///
/// # Errors
/// `AllocError` where memory was refused.
pub fn write_refused(report: &mut String, faults: &[DescriptorErrorKind]) -> Result<(), AllocError>
    ensures { OnOk result (string_bytes report.new ≡ string_bytes report.old
        ++ spec.refused_lines faults.now) }
{
    let count = faults.len();
    writeln!(report, "refused {count}")?;
    for fault in faults {
        let fault = Labelled(fault);
        writeln!(report, "{fault}")?;
    }
    Ok(())
}

/// Tells what a name means: the kind of the definition, the name of its file, and its path.
///
/// # Errors
/// `AllocError` where memory was refused.
pub fn write_definition(
    report: &mut String,
    definition: &Definition,
    file: &str,
) -> Result<(), AllocError>
    ensures { OnOk result (string_bytes report.new ≡ string_bytes report.old
        ++ spec.definition_line file.now definition.now) }
{
    let kind = KindWords(definition.kind);
    let file = alone(file);
    let path = definition.path.as_slice();
    writeln!(report, "{kind} {file} {path:?}")
}

/// Tells an extension: its index, and its full name.
///
/// # Errors
/// `AllocError` where memory was refused.
pub fn write_extension(report: &mut String, index: u32, full_name: &str) -> Result<(), AllocError>
    ensures { OnOk result (string_bytes report.new ≡ string_bytes report.old
        ++ spec.extension_line index full_name.now) }
{
    let name = alone(full_name);
    writeln!(report, "extension {index} {name}")
}

/// Tells that there is nothing.
///
/// # Errors
/// `AllocError` where memory was refused.
pub fn write_none(report: &mut String) -> Result<(), AllocError>
    ensures { OnOk result (string_bytes report.new ≡ string_bytes report.old ++ spec.none_line) }
{
    writeln!(report, "none")
}

/// Tells a declaration: its kind, its own index, its full name and its path.
fn write_declaration(report: &mut String, declaration: &Declaration) -> Result<(), AllocError>
    ensures { OnOk result (string_bytes report.new ≡ string_bytes report.old
        ++ spec.declaration_line declaration.now) }
{
    let kind = declared_word(declaration.kind);
    let index = declaration.index;
    let name = alone(declaration.full_name.as_str());
    let path = declaration.path.as_slice();
    writeln!(report, "{kind} {index} {name} {path:?}")
}

/// Tells how many declarations there are, and each on a line of its own.
fn write_declarations(report: &mut String, list: &[Declaration]) -> Result<(), AllocError>
    ensures { OnOk result (string_bytes report.new ≡ string_bytes report.old
        ++ spec.declaration_lines list.now) }
{
    let count = list.len();
    writeln!(report, "walk {count}")?;
    for declaration in list {
        write_declaration(report, declaration)?;
    }
    Ok(())
}

/// Tells what the linked records of files declare, which must fit into a pool, as `Counts::of`
/// tells.
///
/// # Errors
/// `AllocError` where memory was refused.
pub fn write_walk(
    alloc: Global,
    report: &mut String,
    files: &[FileDescriptorInner],
) -> Result<(), AllocError>
    requires { IsOk (counts_with no_counts (map (λ f. f.raw) files.now)) }
    ensures { OnOk result (string_bytes report.new ≡ string_bytes report.old
        ++ spec.walk_answer (map (λ f. f.raw) files.now)) }
{
    let base = Counts {
        files: 0,
        messages: 0,
        enums: 0,
        services: 0,
        extensions: 0,
    };
    let mut lister = Lister::new(alloc);
    walk(alloc, base, files, &mut lister)?;
    write_declarations(report, lister.declarations())
}

/// The first file with a name.
fn file_named<'a>(files: &'a [FileDescriptorInner], name: &str) -> Option<&'a FileDescriptorInner>
    ensures { option_copied result
        ≡ find (λ f. bytes_eq (text_of f.raw.name) name.now) files.now }
{
    files.iter().find(|file| file.raw.name() == name)
}

/// Tells a reference: the declaration that refers, the part of its record, and the text there.
fn write_reference(report: &mut String, reference: &Reference) -> Result<(), AllocError>
    ensures { OnOk result (string_bytes report.new ≡ string_bytes report.old
        ++ spec.reference_line (reference_of reference.now)) }
{
    let name = alone(reference.full_name.as_str());
    let part = reference.part;
    let text = reference.text;
    writeln!(report, "{name} {part} {text}")
}

/// Tells how many references there are, and each on a line of its own.
fn write_references(report: &mut String, list: &[Reference]) -> Result<(), AllocError>
    ensures { OnOk result (string_bytes report.new ≡ string_bytes report.old
        ++ spec.reference_lines (map reference_of list.now)) }
{
    let count = list.len();
    writeln!(report, "refs {count}")?;
    for reference in list {
        write_reference(report, reference)?;
    }
    Ok(())
}

/// Tells to what the linked record of the first file with a name refers. What the records declare
/// must fit into a pool, as `Counts::of` tells.
///
/// # Errors
/// `AllocError` where memory was refused.
pub fn write_refs(
    alloc: Global,
    report: &mut String,
    files: &[FileDescriptorInner],
    name: &str,
) -> Result<(), AllocError>
    requires { IsOk (counts_with no_counts (map (λ f. f.raw) files.now)) }
    ensures { OnOk result (string_bytes report.new ≡ string_bytes report.old
        ++ spec.refs_answer (map (λ f. f.raw) files.now) name.now) }
{
    let Some(file) = file_named(files, name) else {
        return write_none(report);
    };
    write_references(report, &references(alloc, &file.raw)?)
}

/// Tells the fault of a script, and its line.
///
/// # Errors
/// `AllocError` where memory was refused.
pub fn write_fault(report: &mut String, line: u64, fault: ScriptFault) -> Result<(), AllocError>
    ensures { OnOk result (string_bytes report.new ≡ string_bytes report.old
        ++ spec.fault_line (line, fault)) }
{
    writeln!(report, "line {line}: {fault}")
}
