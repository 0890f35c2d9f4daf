use descriptor_linker::{write_counts, write_fault, write_too_many};
use descriptor_pool::{BuildError, DescriptorPool};
use link_script::{Obeys, RecordBuilder, SaidLocation, ScriptError, ScriptReader, Statement};
use pool_descriptions::{describe, faults_text};
use std::alloc::{AllocError, Global};

/// What each `link` of a script makes of its batch: the counts of the pool, what there is too much
/// of, or the faults in full. Behind that stands what the pool has then. Other commands are passed
/// over, and the fault of a script ends it.
///
/// # Errors
/// `AllocError` where memory was refused.
pub(super) fn batches_text(alloc: Global, script: &[u8]) -> Result<String, AllocError> {
    let mut batches = Batches {
        alloc,
        text: String::new(alloc),
        builder: RecordBuilder::new(alloc),
        pool: DescriptorPool::new(alloc),
    };
    match ScriptReader::new(alloc, script).obey(&mut batches) {
        Ok(()) => {}
        Err(ScriptError::Fault(line, fault)) => write_fault(&mut batches.text, line, fault)?,
        Err(ScriptError::OutOfMemory) => return Err(AllocError),
    }
    let Batches { mut text, pool, .. } = batches;
    let items = describe(alloc, &pool)?;
    text.push_str(items.as_str())?;
    Ok(text)
}

/// What the statements so far have made.
#[derive(Drop)]
struct Batches {
    alloc: Global,
    text: String,
    builder: RecordBuilder,
    pool: DescriptorPool,
}

/// Links what a script declares, and passes over its other commands.
impl Obeys for Batches {
    ghost obeys = { λ _ _ _. Unit {0} };

    fn locate(&mut self, location: SaidLocation) -> Result<(), AllocError> {
        self.builder.locate(location)
    }

    fn state(&mut self, statement: Statement) -> Result<(), AllocError> {
        match statement {
            Statement::Link => self.link(),
            statement => self.builder.state(statement),
        }
    }
}

impl Batches {
    /// Links the files that are built, and tells what has come of it.
    fn link(&mut self) -> Result<(), AllocError> {
        match self.pool.build_files(self.builder.take_files()) {
            Ok(()) => write_counts(&mut self.text, self.pool.counts()),
            Err(BuildError::TooMany(kind)) => write_too_many(&mut self.text, kind),
            Err(BuildError::Descriptor(error)) => {
                let faults = faults_text(self.alloc, &error)?;
                self.text.push_str(faults.as_str())
            }
            Err(BuildError::OutOfMemory) => Err(AllocError),
        }
    }
}
