ghost use Rattle.std.specs.Prelude.{◌≡◌, IfOk};

use crate::batches::batch_of;
use crate::known::{Added, NOTHING_ADDED, added_by};
use crate::reading::{ReadError, Source, read_each, read_files};
use crate::report::{Report, fault_report, refused_report, too_many_report, unequal_report};
use crate::status::Status;
use descriptor_pool::{BuildError, DescriptorPool};
use joined_files::JoinedFiles;
use plain_data::Items;
use proto_types::FileDescriptorProto;
use std::alloc::{AllocError, Global};
use verdict_texts::RefusedBatch;

/// How many faults a report tells at most where nothing is said.
const MAX_FAULTS: usize = 100;

/// A pool, and what the last call that added files tells.
#[derive(Drop)]
pub struct Answers {
    pub pool: DescriptorPool,
    pub report: Report,
    /// What became of the files of that call, where it linked them; else nothing.
    pub added: Added,
    /// How many faults a report tells at most, of calls from now on.
    pub max_faults: usize,
}

impl Answers {
    ghost use Rattle.numbered_pool.specs.Added.{AddedAs, JoinedAs, LinkedAs, ToldAs, no_answers};
    ghost use Rattle.numbered_pool.specs.Added.{unreported};
    ghost use Rattle.numbered_pool.specs.Batches as spec;
    ghost use Rattle.numbered_pool.specs.Known.{none_added};
    ghost use Rattle.numbered_pool.specs.Reading.{Read, Reads, each_read, file_read, files_read};
    ghost use Rattle.numbered_pool.specs.Reading.{script_read, set_read};
    ghost use Rattle.numbered_pool.specs.Reports.{no_report};

    /// A pool without files and an empty report, which takes no memory. It tells a hundred faults
    /// at most.
    pub fn new(alloc: Global) -> Answers
        ensures { result ≡ no_answers }
    {
        Answers {
            pool: DescriptorPool::new(alloc),
            report: Report::new(alloc),
            added: NOTHING_ADDED,
            max_faults: MAX_FAULTS,
        }
    }

    /// A pool with equal contents and the same limit of faults, and an empty report. The two share
    /// nothing.
    ///
    /// # Errors
    /// `AllocError` where memory was refused.
    pub fn clone(&self, alloc: Global) -> Result<Answers, AllocError>
        ensures { IfOk result (λ copy. copy ≡ unreported self.now) }
    {
        let pool = self.pool.clone()?;
        Ok(Answers {
            pool,
            report: Report::new(alloc),
            added: NOTHING_ADDED,
            max_faults: self.max_faults,
        })
    }

    /// Links the files of an encoded `FileDescriptorSet`, in one batch. Files of one name that are
    /// equal apart from the places of their parts in a source count once; where they are not,
    /// nothing is linked. Files whose names the pool has are passed over, and no report looks at
    /// them. After any status but `Done` the pool is as it was. What there is to tell is in the
    /// report, which is empty after `Done` and
    /// `OutOfMemory`; after `Done` what became of the files is in `added`.
    pub fn add_set(&mut self, alloc: Global, bytes: &[u8]) -> Status
        ensures { AddedAs (set_read bytes.now) self.old self.new result }
    {
        self.add(alloc, Source::Set, bytes)
    }

    /// Links the file of an encoded `FileDescriptorProto` as `add_set` does.
    pub fn add_file(&mut self, alloc: Global, bytes: &[u8]) -> Status
        ensures { AddedAs (file_read bytes.now) self.old self.new result }
    {
        self.add(alloc, Source::File, bytes)
    }

    /// Links several files in one batch, in any order, as `add_set` does. They are encoded
    /// `FileDescriptorProto`s that stand behind one another in the bytes, by their lengths.
    pub fn add_files(&mut self, alloc: Global, bytes: &[u8], lengths: &[usize]) -> Status
        ensures { AddedAs (each_read bytes.now lengths.now) self.old self.new result }
    {
        let read = read_each(alloc, bytes, lengths);
        self.add_read(alloc, read)
    }

    /// Links the files that a script declares as `add_set` does. Its commands are passed over.
    pub fn add_script(&mut self, alloc: Global, bytes: &[u8]) -> Status
        ensures { AddedAs (script_read bytes.now) self.old self.new result }
    {
        self.add(alloc, Source::Script, bytes)
    }

    /// Links the files that bytes say.
    fn add(&mut self, alloc: Global, source: Source, bytes: &[u8]) -> Status
        ensures { AddedAs (files_read source bytes.now) self.old self.new result }
    {
        let read = read_files(alloc, source, bytes);
        self.add_read(alloc, read)
    }

    /// Links files that were read.
    fn add_read(
        &mut self,
        alloc: Global,
        read: Result<Items<FileDescriptorProto>, ReadError>,
    ) -> Status
        ensures { (said : Read) → Reads read said → AddedAs said self.old self.new result }
    {
        self.report = Report::new(alloc);
        self.added = NOTHING_ADDED;
        match read {
            Ok(files) => self.link_files(alloc, files),
            Err(ReadError::Fault(words)) => {
                let report = fault_report(alloc, words.as_str());
                self.tell(alloc, report, Status::Fault)
            }
            Err(ReadError::OutOfMemory) => Status::OutOfMemory,
        }
    }

    /// Links files into a pool of which nothing is told, as one batch in which each name stands
    /// once.
    fn link_files(&mut self, alloc: Global, files: Items<FileDescriptorProto>) -> Status
        requires silent { self.old.report ≡ no_report }
        requires uncounted { self.old.added ≡ none_added }
        ensures { JoinedAs self.old (spec.batch_of files) self.new result }
    {
        match batch_of(alloc, files) {
            Ok(joined) => self.link_joined(alloc, joined),
            Err(_) => Status::OutOfMemory,
        }
    }

    /// Links files that were joined to a batch, unless some differ from those in it of their names.
    fn link_joined(&mut self, alloc: Global, joined: JoinedFiles) -> Status
        requires silent { self.old.report ≡ no_report }
        requires uncounted { self.old.added ≡ none_added }
        ensures { JoinedAs self.old joined self.new result }
    {
        let JoinedFiles { files, unequal } = joined;
        if unequal.as_slice().is_empty() {
            return self.link(alloc, files);
        }
        let report = unequal_report(alloc, unequal.as_slice(), self.max_faults);
        self.tell(alloc, report, Status::Refused)
    }

    /// Links a batch into a pool of which nothing is told.
    fn link(&mut self, alloc: Global, batch: Items<FileDescriptorProto>) -> Status
        requires silent { self.old.report ≡ no_report }
        requires uncounted { self.old.added ≡ none_added }
        ensures { LinkedAs self.old batch self.new result }
    {
        let added = added_by(&self.pool, batch.as_slice());
        let mut files = batch.into_vec();
        match self.pool.link_within(&mut files, Some(self.max_faults)) {
            Ok(()) => {
                self.added = added;
                Status::Done
            }
            Err(BuildError::TooMany(kind)) => {
                let report = too_many_report(alloc, kind);
                self.tell(alloc, report, Status::TooMany)
            }
            Err(BuildError::Descriptor(error)) => {
                let refused = RefusedBatch {
                    linked: self.pool.files(),
                    files: &files,
                    faults: error.errors(),
                    rest: error.rest,
                };
                let report = refused_report(alloc, &refused, self.max_faults);
                self.tell(alloc, report, Status::Refused)
            }
            Err(BuildError::OutOfMemory) => Status::OutOfMemory,
        }
    }

    /// Keeps a report, and answers its status; where memory was refused for it, keeps none.
    fn tell(&mut self, alloc: Global, report: Result<Report, AllocError>, status: Status) -> Status
        ensures pool { self.new.pool ≡ self.old.pool }
        ensures max_faults { self.new.max_faults ≡ self.old.max_faults }
        ensures added { self.new.added ≡ self.old.added }
        ensures told { ToldAs report status self.new.report result }
    {
        match report {
            Ok(report) => {
                self.report = report;
                status
            }
            Err(_) => {
                self.report = Report::new(alloc);
                Status::OutOfMemory
            }
        }
    }
}
