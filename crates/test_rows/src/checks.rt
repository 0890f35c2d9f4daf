use crate::devices::RowDevices;
use crate::files::read_if_there;
use crate::outputs::Output;
use crate::trials::Trial;
use descriptor_check::run;
use plain_data::Text;
use std::io;

/// The rows of the check of descriptor sets: what it tells people, and what it tells as an object.
pub(super) enum CheckRows {
    AsText,
    AsJson,
}

impl Trial for CheckRows {
    fn folder(&self) -> &'static str {
        "checks"
    }

    fn wanted(&self) -> &'static str {
        match self {
            CheckRows::AsText => "text",
            CheckRows::AsJson => "json",
        }
    }

    fn output(&self, rt: &HostRuntime, name: &str) -> io::Result<Output> {
        let (folder, own) = name.rsplit_once('/').unwrap_or(("", name));
        let mut words = arguments(rt, name, own)?;
        if matches!(self, CheckRows::AsJson) {
            words.push(Text::from_str(rt.alloc(), "--json")?)?;
        }
        let mut devices = RowDevices::new(rt, folder, words.as_slice());
        let status = run(rt.alloc(), &mut devices).number();
        let text = devices.into_text().into_bytes();
        Ok(Output { text, status })
    }
}

/// The arguments of a row: those that it has, or its set.
fn arguments(rt: &HostRuntime, name: &str, own: &str) -> io::Result<Vec<Text>> {
    let alloc = rt.alloc();
    let mut words = Vec::new(alloc);
    let Some(lines) = read_if_there(rt, name, "args")? else {
        let set = format!(in alloc; "{own}.pb")?;
        words.push(Text::from_string(set))?;
        return Ok(words);
    };
    for line in lines_of(lines.as_slice())?.lines() {
        words.push(Text::from_str(alloc, line)?)?;
    }
    Ok(words)
}

/// Bytes as a text.
fn lines_of(bytes: &[u8]) -> io::Result<&str> {
    match str::from_utf8(bytes) {
        Ok(text) => Ok(text),
        Err(_) => Err(io::Error::other("arguments are no text")),
    }
}
