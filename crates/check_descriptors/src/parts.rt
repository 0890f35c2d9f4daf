//! A set that is written beside its file, under a name of its own, and then put into its place.

use crate::failures::{failure_of, refusal};
use descriptor_check::{DeviceError, LinkedSet, Part};
use plain_data::Text;
use std::alloc::{AllocError, Global};
use std::fs::{self, File, Metadata, OpenOptions};
use std::io::{self, ErrorKind, Write};
use std::os::unix::fs::{MetadataExt, OpenOptionsExt, PermissionsExt};

/// How many names beside a file are tried.
const MOST_NAMES: u32 = 1000;

/// The mode of a file that replaces none, before the mask of the process.
const NEW_MODE: u32 = 0o666;

/// Writes a set beside its file. The part has the mode of the file, if that is there.
///
/// # Errors
/// `Failed` where the file is no regular one, or that of the standard output, or the part could not
/// be written, and `OutOfMemory`. Nothing is left then.
pub(crate) fn write_part(rt: &HostRuntime, set: &LinkedSet) -> Result<Part, DeviceError> {
    let alloc = rt.alloc();
    let old = old_file(rt, set.name.as_str())?;
    let place = place_of(rt, set.name.as_str(), &old)?;
    let (name, file) = free_file(rt, place.as_str(), mode_of(&old))?;
    match fill(file, old, set.bytes.as_slice()) {
        Ok(()) => Ok(Part { name, place }),
        Err(error) => {
            let _ = fs::remove_file(rt, name.as_str());
            Err(failure_of(alloc, name.as_str(), &error))
        }
    }
}

/// What is known of a file that is to be replaced, if it is there.
fn old_file(rt: &HostRuntime, name: &str) -> Result<Option<Metadata>, DeviceError> {
    let alloc = rt.alloc();
    match fs::metadata(rt, name) {
        Ok(old) if !old.is_file() => {
            Err(refusal(alloc, name, "it is there, and is no regular file"))
        }
        Ok(old) if is_standard_output(rt, &old) => {
            Err(refusal(alloc, name, "it is the file of the standard output"))
        }
        Ok(old) => Ok(Some(old)),
        Err(error) if error.kind() == ErrorKind::NotFound => new_file(rt, name),
        Err(error) => Err(failure_of(alloc, name, &error)),
    }
}

/// Whether a file is the one that the standard output goes to. The verdict would be lost with it.
fn is_standard_output(rt: &HostRuntime, file: &Metadata) -> bool {
    match fs::metadata(rt, "/dev/stdout") {
        Ok(output) => output.dev() == file.dev() && output.ino() == file.ino(),
        Err(_unknown) => false,
    }
}

/// The mode with which a part is made: that of the file that it replaces.
fn mode_of(old: &Option<Metadata>) -> u32 {
    match old {
        Some(old) => old.permissions().mode(),
        None => NEW_MODE,
    }
}

/// Nothing is known of a file that is not there. It has a name, which is no link.
fn new_file(rt: &HostRuntime, name: &str) -> Result<Option<Metadata>, DeviceError> {
    if name.is_empty() {
        return Err(refusal(
            rt.alloc(),
            "--linked ''",
            "give the name of the file to write",
        ));
    }
    if fs::symlink_metadata(rt, name).is_ok() {
        return Err(refusal(rt.alloc(), name, "it is a link to a file that is not there"));
    }
    Ok(None)
}

/// The name of a file without links, where it is there.
fn place_of(rt: &HostRuntime, name: &str, old: &Option<Metadata>) -> Result<Text, DeviceError> {
    if old.is_none() {
        return Ok(Text::from_str(rt.alloc(), name)?);
    }
    match fs::canonicalize(rt, name) {
        Ok(path) => Ok(Text::from_string(path.into_string())),
        Err(error) => Err(failure_of(rt.alloc(), name, &error)),
    }
}

/// A new file beside another, by a name that nothing had, with a mode.
fn free_file(rt: &HostRuntime, place: &str, mode: u32) -> Result<(Text, File), DeviceError> {
    let alloc = rt.alloc();
    let mut options = OpenOptions::new();
    options.write(true).create_new(true).mode(mode);
    for number in 0..MOST_NAMES {
        let name = part_name(alloc, place, number)?;
        match options.open(rt, name.as_str()) {
            Ok(file) => return Ok((name, file)),
            Err(error) if error.kind() == ErrorKind::AlreadyExists => {}
            Err(error) => return Err(failure_of(alloc, name.as_str(), &error)),
        }
    }
    Err(refusal(alloc, place, "each name for what is written first is taken"))
}

/// A name beside a file, by its number.
fn part_name(alloc: Global, place: &str, number: u32) -> Result<Text, AllocError> {
    let name = if number == 0 {
        format!(in alloc; "{place}.part")?
    } else {
        format!(in alloc; "{place}.part{number}")?
    };
    Ok(Text::from_string(name))
}

/// Writes a new file, with the mode of the one that it replaces, and sees that it is kept.
fn fill(mut file: File, old: Option<Metadata>, bytes: &[u8]) -> io::Result<()> {
    if let Some(old) = old {
        file.set_permissions(old.permissions())?;
    }
    file.write_all(bytes)?;
    file.sync_all()
}

/// Puts a part into the place of its file, or takes it away where that fails.
pub(crate) fn rename_part(rt: &HostRuntime, part: Part) -> Result<(), DeviceError> {
    let Part { name, place } = part;
    match fs::rename(rt, name.as_str(), place.as_str()) {
        Ok(()) => Ok(()),
        Err(error) => {
            let _ = fs::remove_file(rt, name.as_str());
            Err(failure_of(rt.alloc(), place.as_str(), &error))
        }
    }
}

/// Takes a part away.
pub(crate) fn remove_part(rt: &HostRuntime, part: Part) {
    let Part {
        name,
        place: _place,
    } = part;
    let _ = fs::remove_file(rt, name.as_str());
}
