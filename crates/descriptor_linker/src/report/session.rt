//! A script, statement by statement.

ghost use Rattle.std.specs.Prelude.{◌≡◌, OnOk, OnErr, string_len, string_capacity};
ghost use Rattle.link_script.specs.declared.script.statement.Statement.TheVariants as say;
ghost use Rattle.descriptor_linker.specs.Report.Session.{new_session, step, FitsOrLacksRoom};

use super::answers::{write_ext, write_found, write_refs, write_walk};
use super::lines::{write_counts, write_refused, write_too_many};
use super::relink::write_relink;
use descriptor_pool::{BuildError, DescriptorPool};
use link_script::{Obeys, RecordBuilder, SaidLocation, Statement};
use std::alloc::{AllocError, Global};

/// What the statements so far have made.
#[derive(Drop)]
pub(super) struct Session {
    alloc: Global,
    /// The files to be linked next, and the records whose blocks are open.
    builder: RecordBuilder,
    pool: DescriptorPool,
    pub(super) text: String,
}

impl Session {
    ghost use Rattle.descriptor_linker.specs.Report.Code.{session_in};

    /// A session before the first statement, which takes no memory.
    pub(super) fn new(alloc: Global) -> Session
        ensures { session_in result ≡ new_session }
    {
        Session {
            alloc,
            builder: RecordBuilder::new(alloc),
            pool: DescriptorPool::new(alloc),
            text: String::new(alloc),
        }
    }

    /// Links the files that are built, and tells what has come of it.
    ///
    /// # Errors
    /// `AllocError` where memory was refused. The files fit the pool then, or the report has no
    /// room for the line that tells what there is too much of.
    fn link(&mut self) -> Result<(), AllocError>
        ensures step { OnOk result (session_in self.new ≡ step (session_in self.old) say.Link) }
        ensures refused { OnErr result (FitsOrLacksRoom (session_in self.old)
            (string_len self.old.text) (string_capacity self.old.text)) }
    {
        match self.pool.build_files(self.builder.take_files()) {
            Ok(()) => write_counts(&mut self.text, self.pool.counts()),
            Err(BuildError::TooMany(kind)) => write_too_many(&mut self.text, kind),
            Err(BuildError::Descriptor(error)) => write_refused(&mut self.text, error.errors()),
            Err(BuildError::OutOfMemory) => Err(AllocError),
        }
    }
}

impl Obeys for Session {
    ghost use Rattle.descriptor_linker.specs.Report.Code.{session_in};

    ghost obeys = { λ old s new. session_in new ≡ step (session_in old) s };

    fn locate(&mut self, location: SaidLocation) -> Result<(), AllocError> {
        self.builder.locate(location)
    }

    // Inlined, as that of the builder is.
    #[inline(always)]
    fn state(&mut self, statement: Statement) -> Result<(), AllocError> {
        match statement {
            Statement::Link => self.link(),
            Statement::Find(name) => write_found(&mut self.text, &self.pool, name.as_str()),
            Statement::Walk => write_walk(self.alloc, &mut self.text, &self.pool),
            Statement::Refs(name) => {
                write_refs(self.alloc, &mut self.text, &self.pool, name.as_str())
            }
            Statement::Ext(name, number) => {
                write_ext(&mut self.text, &self.pool, name.as_str(), number)
            }
            Statement::Relink => write_relink(self.alloc, &mut self.text, &self.pool),
            statement => self.builder.state(statement),
        }
    }
}
