//! The faults of fields that are given an extendee, and of extensions with a oneof.

use super::files_of;
use descriptor_pool::{BuildError, DescriptorPool};
use plain_data::Text;
use pool_faults::{DescriptorError, DescriptorErrorKind, Labelled};
use proto_types::FileDescriptorProto;
use std::alloc::{AllocError, Global};
use std::fmt::Write;
use std::test::Fail;

/// A batch, the extendee that the last field of the last file's last message is given, and a line
/// for each of its faults: its text, and the path where it is found. No name is looked for: the
/// field is one of its message. The last extension of that file is given a oneof, which counts for
/// nothing.
const EXTENDING: &[(&str, &str, &str)] = &[
    (
        "file a.proto\nmessage M\nfield f 1 optional int32 ~ ~\nend\nend\n",
        "Nope",
        "a.proto: message 'M' does not define '1' as an extension number [4, 0, 2, 0, 3]\n",
    ),
    (
        "file a.proto\nmessage M\nreserved 2 3\nextensions 1 2\n\
        field f 2 optional int32 ~ ~\nend\nend\n",
        "",
        "a.proto: field number '2' conflicts with reserved range '2 to 2' [4, 0, 2, 0, 3]\n\
        a.proto: message 'M' does not define '2' as an extension number [4, 0, 2, 0, 3]\n",
    ),
    (
        "file a.proto\nmessage M\nextensions 1 3\nfield f 1 optional int32 ~ ~\nend\n\
        extend e 2 optional int32 ~ M\nend\n",
        "M",
        "",
    ),
];

/// Gives the last field of a file's last message an extendee, which no statement does.
fn give_extendee(file: &mut FileDescriptorProto, extendee: Text) -> Result<(), AllocError> {
    let Some(mut message) = file.message_type.pop() else {
        return Ok(());
    };
    if let Some(mut field) = message.field.pop() {
        field.extendee = Some(extendee);
        message.field.push(field)?;
    }
    file.message_type.push(message)
}

/// Gives a file's last extension a oneof, which no statement does.
fn give_oneof(file: &mut FileDescriptorProto) -> Result<(), AllocError> {
    if let Some(mut extension) = file.extension.pop() {
        extension.oneof_index = Some(7);
        file.extension.push(extension)?;
    }
    Ok(())
}

/// The files of a script, of which the last is given that extendee and a oneof.
fn files_extending(
    alloc: Global,
    script: &str,
    extendee: &str,
) -> Result<Vec<FileDescriptorProto>, AllocError> {
    let extendee = Text::from_str(alloc, extendee)?;
    let mut files = files_of(alloc, script)?;
    if let Some(file) = files.last_mut() {
        give_extendee(file, extendee)?;
        give_oneof(file)?;
    }
    Ok(files)
}

/// How a new pool takes a batch.
fn built(alloc: Global, files: Vec<FileDescriptorProto>) -> Result<(), BuildError> {
    DescriptorPool::new(alloc).build_files(files)
}

/// A line for each fault of a batch.
fn faults_report(alloc: Global, files: Vec<FileDescriptorProto>) -> Result<String, AllocError> {
    match built(alloc, files) {
        Ok(()) => Ok(String::new(alloc)),
        Err(BuildError::Descriptor(error)) => error_report(alloc, &error),
        Err(BuildError::TooMany(_)) => String::from_str(alloc, "too many"),
        Err(BuildError::OutOfMemory) => Err(AllocError),
    }
}

fn error_report(alloc: Global, error: &DescriptorError) -> Result<String, AllocError> {
    let mut report = String::new(alloc);
    for fault in error.errors() {
        write_fault(&mut report, fault)?;
    }
    Ok(report)
}

fn write_fault(report: &mut String, fault: &DescriptorErrorKind) -> Result<(), AllocError> {
    let labelled = Labelled(fault);
    match fault.label() {
        Some(label) => {
            let path = label.path();
            writeln!(report, "{labelled} {path:?}")
        }
        None => writeln!(report, "{labelled}"),
    }
}

/// A line for each fault of a batch whose last field is given an extendee.
fn report_of(alloc: Global, script: &str, extendee: &str) -> Result<String, AllocError> {
    faults_report(alloc, files_extending(alloc, script, extendee)?)
}

#[test]
fn fields_that_are_given_an_extendee_have_faults(rt: HostRuntime) -> Result<(), Fail> {
    for (script, extendee, wanted) in EXTENDING {
        let report = report_of(rt.alloc(), script, extendee)?;
        assert!(rt; report.as_str() == *wanted, "{script}\n{report}");
    }
    Ok(())
}
