ghost use Rattle.std.specs.Prelude.{◌≡◌, ◌<◌, IfOk, length, map, find};
ghost use Rattle.std.specs.Cmp.Lexicographic.{pointwise};
ghost use Rattle.std.specs.Option.{option_copied};
ghost use Rattle.std.specs.Ordering.{int_eq};
ghost use Rattle.pool_faults.specs.Labels.{label, label_in, label_line, label_column, non_negative};
ghost use Rattle.pool_faults.specs.Labels.{span_at, span_of};

use plain_data::{Items, Text};
use pool_types::FileDescriptorInner;
use proto_types::{FileDescriptorProto, Location};
use std::alloc::{AllocError, Global};
use std::fmt;

/// Where something stands: the name of a file, the path in its record, and the place in its source.
#[derive(PartialEq, Drop)]
pub struct Label {
    pub file: Text,
    pub path: Items<i32>,
    /// The start line, the start column, the end line and the end column, which count from 0.
    pub span: Option<[i32; 4]>,
}

impl Label {
    /// The label of a path in the file with an index, from 0 in the order of linking.
    ///
    /// # Errors
    /// `AllocError` where memory was refused.
    pub fn new(
        alloc: Global,
        files: &[FileDescriptorInner],
        file: u32,
        path: &[i32],
    ) -> Result<Label, AllocError>
        requires { file < length files.now }
        ensures { IfOk result (λ l. l ≡ label_in (map (λ f. f.raw) files.now) file path.now) }
    {
        Label::in_record(alloc, &files[file as usize].raw, path)
    }

    /// The label of a path in a file's record.
    ///
    /// # Errors
    /// `AllocError` where memory was refused.
    pub fn in_record(
        alloc: Global,
        file: &FileDescriptorProto,
        path: &[i32],
    ) -> Result<Label, AllocError>
        ensures { IfOk result (λ l. l ≡ label file.now path.now) }
    {
        Ok(Label {
            file: Text::from_str(alloc, file.name())?,
            path: Items::from_slice(alloc, path)?,
            span: span_at(file, path),
        })
    }

    /// The file's name.
    pub fn file(&self) -> &str
        ensures { result.now ≡ self.now.file }
    {
        self.file.as_str()
    }

    /// Field numbers and positions, from the file on.
    pub fn path(&self) -> &[i32]
        ensures { result.now ≡ self.now.path }
    {
        self.path.as_slice()
    }

    /// The start line, the start column, the end line and the end column, if the source is known.
    pub fn span(&self) -> Option<[i32; 4]>
        ensures { result ≡ self.now.span }
    {
        self.span
    }

    /// The line at which it begins, from 0, if the source is known.
    pub fn line(&self) -> Option<usize>
        ensures { result ≡ label_line self.now }
    {
        let [line, _, _, _] = self.span?;
        non_negative(line)
    }

    /// The column at which it begins, from 0, if the source is known.
    pub fn column(&self) -> Option<usize>
        ensures { result ≡ label_column self.now }
    {
        let [_, column, _, _] = self.span?;
        non_negative(column)
    }
}

impl fmt::Debug for Label {
    fn fmt<W: fmt::Write>(&self, f: &mut fmt::Formatter<W>) -> fmt::Result {
        f.debug_struct("Label")
            .field("file", &self.file())
            .field("path", &self.path())
            .field("span", &self.span)
            .finish()
    }
}

/// The span of the first location of a path.
fn span_at(file: &FileDescriptorProto, path: &[i32]) -> Option<[i32; 4]>
    ensures { result ≡ span_at file.now path.now }
{
    let source = file.source_code_info.as_ref()?;
    let location = first_location(source.location.as_slice(), path)?;
    span_of(location.span.as_slice())
}

fn first_location<'a>(locations: &'a [Location], path: &[i32]) -> Option<&'a Location>
    ensures { option_copied result ≡ find (λ l. pointwise int_eq l.path path.now) locations.now }
{
    locations.iter().find(|l| l.path.as_slice() == path)
}

/// The four numbers of a span, which is written by three where it ends in the line of its start.
pub(crate) fn span_of(numbers: &[i32]) -> Option<[i32; 4]>
    ensures { result ≡ span_of numbers.now }
{
    if numbers.iter().any(|number| *number < 0) {
        return None;
    }
    match numbers {
        [line, start, end] => Some([*line, *start, *line, *end]),
        [first, start, last, end] => Some([*first, *start, *last, *end]),
        _ => None,
    }
}

/// The number, unless it is negative.
fn non_negative(number: i32) -> Option<usize>
    ensures { result ≡ non_negative number }
{
    if number < 0 {
        None
    } else {
        Some(number as usize)
    }
}
