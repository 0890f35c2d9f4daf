ghost use Rattle.std.specs.Prelude.{◌≡◌, IfOk, map};
ghost use Rattle.pool_faults.specs.Labels.{label_in, locations, span_at};
ghost use Rattle.proto_types.specs.File.{file_at};

use crate::files::label_at;
use crate::label::Label;
use crate::spans::Spans;
use plain_data::{Items, Text};
use pool_types::FileDescriptorInner;
use proto_types::{FileDescriptorProto, Location};
use std::alloc::{AllocError, Global};
use std::collections::HashMap;
use std::marker::Model;

/// What makes labels of paths in the files of a pool. The locations of a file are gone through
/// once, at its first label. Contracts see it as the list of the files.
#[derive(Drop)]
pub struct Labels<'f> {
    alloc: Global,
    files: &'f [FileDescriptorInner],
    spans: HashMap<u32, Spans<'f>>,
}

impl<'f> Model for Labels<'f> {
    ghost use Rattle.std.specs.Prelude.{List};
    ghost use Rattle.std.specs.Coded.{coded_list};
    ghost use Rattle.pool_types.specs.contracts.contents.file.FileDescriptorInner as file;
    ghost use Rattle.pool_types.specs.declared.contents.file.FileDescriptorInner.{FileDescriptorInner};

    ghost Value = { List FileDescriptorInner };

    ghost coded = { coded_list file.the_row.coded };

    ghost use Rattle.pool_faults.specs.Spans.{AreOfFiles};

    ghost view = { λ l. l.files.now };

    ghost invariant = { λ l. AreOfFiles l.spans l.files.now };
}

impl<'f> Labels<'f> {
    /// Labels of these files, which are in the order of linking. This takes no memory.
    pub fn new(alloc: Global, files: &'f [FileDescriptorInner]) -> Labels<'f>
        ensures { result ≡ files.now }
    {
        Labels {
            alloc,
            files,
            spans: HashMap::new(alloc),
        }
    }

    /// The files.
    pub fn files(&self) -> &'f [FileDescriptorInner]
        ensures { result.now ≡ self.now }
    {
        self.files
    }

    /// The label of a path in the file with an index, from 0 in the order of linking; where there
    /// is no such file, of no file. It is the one of `label_at`, and the files stay.
    ///
    /// # Errors
    /// `AllocError` where memory was refused. The files stay then too.
    pub fn label(&mut self, file: u32, path: &[i32]) -> Result<Label, AllocError>
        ensures label { IfOk result (λ l. l ≡ label_in (map (λ f. f.raw) self.old) file path.now) }
        ensures files { self.new ≡ self.old }
    {
        let (alloc, files) = (self.alloc, self.files);
        let Some(found) = files.get(file as usize) else {
            return label_at(alloc, files, file, path);
        };
        let span = self.span(file, &found.raw, path)?;
        Ok(Label {
            file: Text::from_str(alloc, found.raw.name())?,
            path: Items::from_slice(alloc, path)?,
            span,
        })
    }

    /// The span of the first location of a path in the file with an index, which has this record.
    fn span(
        &mut self,
        index: u32,
        file: &'f FileDescriptorProto,
        path: &[i32],
    ) -> Result<Option<[i32; 4]>, AllocError>
        requires { file.now ≡ file_at (map (λ f. f.raw) self.old) index }
        ensures span { IfOk result (λ span. span ≡ span_at file.now path.now) }
        ensures files { self.new ≡ self.old }
    {
        if let Some(spans) = self.spans.get(&index) {
            return Ok(spans.span(path));
        }
        let spans = Spans::new(self.alloc, locations(file))?;
        let span = spans.span(path);
        self.spans.insert(index, spans)?;
        Ok(span)
    }
}

/// What a file's record says of its source.
fn locations(file: &FileDescriptorProto) -> &[Location]
    ensures { result.now ≡ locations file.now }
{
    match &file.source_code_info {
        Some(source) => source.location.as_slice(),
        None => &[],
    }
}
