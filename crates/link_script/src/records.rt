//! The records that the statements of a script build, statement by statement.

ghost use Rattle.std.specs.Prelude.{◌≡◌, [], OnOk};
ghost use Rattle.std.specs.Result.{result_map_both};
ghost use Rattle.link_script.specs.declared.script.statement.Statement.TheVariants as say;
ghost use Rattle.link_script.specs.Obeyed.{DeclaresFiles};
ghost use Rattle.link_script.specs.Records.{built, extends_after, nothing_built, opening, stating};
ghost use Rattle.link_script.specs.RecordsCode.{building_in};
ghost use Rattle.link_script.specs.Script.Reading.{script};

use crate::building::Open;
use crate::script::{Obeys, SaidLocation, ScriptError, ScriptReader, Statement};
use plain_data::Text;
use proto_types::FileDescriptorProto;
use std::alloc::{AllocError, Global};
use std::mem;

/// The files that a script declares, in order. Its commands are passed over.
///
/// # Errors
/// `Fault` with the line, from 1, and the script's first fault; `OutOfMemory` where memory was
/// refused.
#[tactic(auto, using(crate::proofs::Obeying::all_built))]
pub fn files_of(alloc: Global, bytes: &[u8]) -> Result<Vec<FileDescriptorProto>, ScriptError>
    ensures { DeclaresFiles (script bytes.now)
        (result_map_both (λ files. files.items) (λ e. e) result) }
{
    let mut builder = RecordBuilder::new(alloc);
    ScriptReader::new(alloc, bytes).obey(&mut builder)?;
    Ok(builder.files)
}

/// What the statements so far have built.
#[derive(Drop)]
pub struct RecordBuilder {
    alloc: Global,
    /// The records whose blocks are open, the innermost last.
    open_records: Vec<Open>,
    /// Whether the last of fields and extensions is an extension.
    extends: bool,
    /// The files whose blocks have closed.
    files: Vec<FileDescriptorProto>,
}

impl RecordBuilder {
    /// Before the first statement, which takes no memory.
    pub fn new(alloc: Global) -> RecordBuilder
        ensures { building_in result ≡ nothing_built }
    {
        RecordBuilder {
            alloc,
            open_records: Vec::new(alloc),
            extends: false,
            files: Vec::new(alloc),
        }
    }

    /// The files whose blocks have closed. There are none then.
    pub fn take_files(&mut self) -> Vec<FileDescriptorProto>
        ensures files { result.items ≡ (building_in self.old).files }
        ensures rest { building_in self.new ≡ record (building_in self.old) { files = [] } }
    {
        mem::replace(&mut self.files, Vec::new(self.alloc))
    }

    fn open_file(&mut self, name: Option<Text>) -> Result<(), AllocError>
        ensures { OnOk result
            (building_in self.new ≡ built (building_in self.old) (say.File name)) }
    {
        self.open(Open::file(self.alloc, name))
    }

    fn open_message(&mut self, name: Option<Text>) -> Result<(), AllocError>
        ensures { OnOk result
            (building_in self.new ≡ built (building_in self.old) (say.Message name)) }
    {
        self.open(Open::message(self.alloc, name))
    }

    fn open_enum(&mut self, name: Option<Text>) -> Result<(), AllocError>
        ensures { OnOk result
            (building_in self.new ≡ built (building_in self.old) (say.Enum name)) }
    {
        self.open(Open::enumeration(self.alloc, name))
    }

    fn open_service(&mut self, name: Option<Text>) -> Result<(), AllocError>
        ensures { OnOk result
            (building_in self.new ≡ built (building_in self.old) (say.Service name)) }
    {
        self.open(Open::service(self.alloc, name))
    }

    /// Opens a record in the innermost open one.
    fn open(&mut self, opened: Open) -> Result<(), AllocError>
        ensures { OnOk result (building_in self.new ≡ opening (building_in self.old) opened) }
    {
        self.open_records.push(opened)?;
        Ok(())
    }

    /// Does what a statement says of the innermost open record.
    fn amend(&mut self, statement: Statement) -> Result<(), AllocError>
        ensures { OnOk result (building_in self.new ≡ stating (building_in self.old) statement) }
    {
        let extends = self.extends;
        self.extends = extends_after(extends, &statement);
        if let Some(innermost) = self.open_records.last_mut() {
            innermost.state(self.alloc, extends, statement)?;
        }
        Ok(())
    }

    /// Closes the innermost open record: it goes into the one around it, and a file behind the
    /// others.
    fn close(&mut self) -> Result<(), AllocError>
        ensures { OnOk result (building_in self.new ≡ built (building_in self.old) say.End) }
    {
        let Some(closed) = self.open_records.pop() else {
            return Ok(());
        };
        let inner = closed.shrunk();
        if let Some(outer) = self.open_records.last_mut() {
            outer.close_in(inner)?;
        } else if let Open::File(file) = inner {
            self.files.push(file)?;
        }
        Ok(())
    }
}

/// A statement is obeyed by what it says of records; a command says nothing of them.
impl Obeys for RecordBuilder {
    ghost obeys = { λ old s new. building_in new ≡ built (building_in old) s };

    fn locate(&mut self, location: SaidLocation) -> Result<(), AllocError> {
        if let Some(innermost) = self.open_records.last_mut() {
            innermost.locate(self.alloc, self.extends, location)?;
        }
        Ok(())
    }

    // Inlined, so that a statement goes on in its parts and is not copied.
    #[inline(always)]
    fn state(&mut self, statement: Statement) -> Result<(), AllocError> {
        match statement {
            Statement::File(name) => self.open_file(name),
            Statement::Message(name) => self.open_message(name),
            Statement::Enum(name) => self.open_enum(name),
            Statement::Service(name) => self.open_service(name),
            Statement::End => self.close(),
            Statement::Link
            | Statement::Find(_)
            | Statement::Walk
            | Statement::Refs(_)
            | Statement::Ext(_, _)
            | Statement::Relink => Ok(()),
            statement => self.amend(statement),
        }
    }
}

/// Whether the last of fields and extensions is an extension, behind a statement.
fn extends_after(before: bool, statement: &Statement) -> bool
    ensures { result ≡ extends_after before statement.now }
{
    match statement {
        Statement::Extend(_) => true,
        Statement::Field(_) => false,
        _ => before,
    }
}
