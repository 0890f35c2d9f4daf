ghost use Rattle.std.specs.Prelude.{◌≡◌, ◌≢◌, true, false, None, IfOk, OnOk, string_bytes};
ghost use Rattle.link_script.specs.Script.Reading.{script};
ghost use Rattle.descriptor_linker.specs.Report.Session.{report, IsTold};

mod answers;
mod lines;
mod relink;
mod session;

pub use lines::{write_counts, write_fault, write_too_many, write_walk};
use link_script::{ScriptError, ScriptReader};
use session::Session;
use std::alloc::{AllocError, Global};

/// The whole report of a script.
#[derive(Drop)]
pub struct Report {
    pub text: String,
    /// Whether the script has a fault, which is the report's last line then.
    pub has_fault: bool,
}

/// The report of a script's bytes.
///
/// # Errors
/// `AllocError` where memory was refused.
pub fn report_of(alloc: Global, bytes: &[u8]) -> Result<Report, AllocError>
    ensures text { IfOk result (λ r. string_bytes r.text ≡ report (script bytes.now)) }
    ensures fault { IfOk result (λ r. (r.has_fault ≡ false → (script bytes.now).fault ≡ None)
        × (r.has_fault ≡ true → (script bytes.now).fault ≢ None)) }
{
    let mut session = Session::new(alloc);
    let ended = ScriptReader::new(alloc, bytes).obey(&mut session);
    let mut text = session.text;
    let has_fault = match ended {
        Ok(()) => false,
        Err(error) => {
            write_end(&mut text, error)?;
            true
        }
    };
    Ok(Report { text, has_fault })
}

/// Writes the line of the fault that ends a script.
fn write_end(text: &mut String, error: ScriptError) -> Result<(), AllocError>
    ensures { OnOk result (IsTold error (string_bytes text.old) (string_bytes text.new)) }
{
    match error {
        ScriptError::Fault(line, fault) => write_fault(text, line, fault),
        ScriptError::OutOfMemory => Err(AllocError),
    }
}
