use std::io::ErrorKind;
use std::{fs, io};

/// The names of all rows in the groups of a folder, in order, of which there is one at least: each
/// is the path of the file with an ending, without the ending.
pub(super) fn row_names(rt: &HostRuntime, folder: &str, ending: &str) -> io::Result<Vec<String>> {
    let ending = format!(in rt.alloc(); ".{ending}")?;
    let mut names = Vec::new(rt.alloc());
    for group in fs::read_dir(rt, folder)? {
        let group = group?;
        if group.file_type()?.is_dir() {
            let name = group.file_name();
            let group = format!(in rt.alloc(); "{folder}/{name}")?;
            push_rows(rt, &mut names, group.as_str(), ending.as_str())?;
        }
    }
    if names.is_empty() {
        return Err(io::Error::other("no row is here"));
    }
    names.sort()?;
    Ok(names)
}

/// Puts the names of the rows in one group behind others.
fn push_rows(
    rt: &HostRuntime,
    names: &mut Vec<String>,
    group: &str,
    ending: &str,
) -> io::Result<()> {
    for entry in fs::read_dir(rt, group)? {
        let entry = entry?;
        if let Some(name) = entry.file_name().strip_suffix(ending) {
            names.push(format!(in rt.alloc(); "{group}/{name}")?)?;
        }
    }
    Ok(())
}

/// Reads a file of a row, and names it where it can't be read.
pub(super) fn read(rt: &HostRuntime, name: &str, ending: &str) -> io::Result<Vec<u8>> {
    let path = format!(in rt.alloc(); "{name}.{ending}")?;
    match fs::read(rt, path.as_str()) {
        Ok(bytes) => Ok(bytes),
        Err(error) => {
            let _ = eprintln!(rt; "{path}: can't be read");
            Err(error)
        }
    }
}

/// Reads a file that some rows have: none where it is not there.
pub(super) fn read_if_there(
    rt: &HostRuntime,
    name: &str,
    ending: &str,
) -> io::Result<Option<Vec<u8>>> {
    let path = format!(in rt.alloc(); "{name}.{ending}")?;
    match fs::read(rt, path.as_str()) {
        Ok(bytes) => Ok(Some(bytes)),
        Err(error) if error.kind() == ErrorKind::NotFound => Ok(None),
        Err(error) => Err(error),
    }
}

/// The status that is wanted of a row: the one that its file has, or 0 where there is none.
pub(super) fn status_wanted(rt: &HostRuntime, name: &str) -> io::Result<u8> {
    let Some(bytes) = read_if_there(rt, name, "status")? else {
        return Ok(0);
    };
    let text = str::from_utf8(bytes.as_slice()).unwrap_or("");
    match text.trim().parse::<u8>() {
        Ok(status) => Ok(status),
        Err(_) => Err(io::Error::other("a status is no number")),
    }
}
