ghost use Rattle.std.specs.Prelude.{◌≡◌, ◌≢◌, [], Some};
ghost use Rattle.std.specs.Fmt.{DisplaysOnOk};
ghost use Rattle.std.specs.List.{flat_map};
ghost use Rattle.std.specs.Option.{option_copied, option_map, option_and_then};
ghost use Rattle.pool_faults.specs.Labels.{label_line, label_column};
ghost use Rattle.pool_faults.specs.Fault.{first_label, further_line};

use crate::{DescriptorErrorKind, Label, Labelled};
use plain_data::Items;
use std::error::Error;
use std::fmt;

/// The faults of a batch that are told, of which there is at least one, and how many more it has.
#[derive(Drop)]
pub struct DescriptorError {
    pub errors: Items<DescriptorErrorKind>,
    /// How many faults the batch has behind those that are told.
    pub rest: usize,
    ghost some: { errors ≢ [] },
}

impl DescriptorError {
    /// Faults in their order, which must be some, and how many more there are.
    pub fn new(errors: Vec<DescriptorErrorKind>, rest: usize) -> DescriptorError
        requires { errors.items ≢ [] }
        ensures errors { result.errors ≡ errors.items }
        ensures rest { result.rest ≡ rest }
    {
        DescriptorError {
            errors: Items::from_vec(errors),
            rest,
        }
    }

    /// The faults that are told, in order.
    pub fn errors(&self) -> &[DescriptorErrorKind]
        ensures { result.now ≡ self.now.errors }
    {
        self.errors.as_slice()
    }

    /// The name of the file that the first fault shows, or none where it shows no label.
    pub fn file(&self) -> Option<&str>
        ensures { option_copied result ≡ option_map (λ l. l.file) (first_label self.now.errors) }
    {
        match self.first_label() {
            Some(label) => Some(label.file()),
            None => None,
        }
    }

    /// The line at which what the first fault shows begins, from 0, or none where it isn't known.
    pub fn line(&self) -> Option<usize>
        ensures { result ≡ option_and_then label_line (first_label self.now.errors) }
    {
        self.first_label()?.line()
    }

    /// The column at which what the first fault shows begins, from 0, or none where it isn't known.
    pub fn column(&self) -> Option<usize>
        ensures { result ≡ option_and_then label_column (first_label self.now.errors) }
    {
        self.first_label()?.column()
    }

    /// The path that the first fault shows, or none where it shows no label.
    pub fn path(&self) -> Option<&[i32]>
        ensures { option_copied result ≡ option_map (λ l. l.path) (first_label self.now.errors) }
    {
        match self.first_label() {
            Some(label) => Some(label.path()),
            None => None,
        }
    }

    fn first_label(&self) -> Option<&Label>
        ensures { option_copied result ≡ first_label self.now.errors }
    {
        self.errors().first()?.label()
    }
}

impl fmt::Display for DescriptorError {
    ghost use Rattle.pool_faults.specs.Fault.{first_text};

    ghost output = { λ e. Some (first_text e.errors) };

    fn fmt<W: fmt::Write>(&self, f: &mut fmt::Formatter<W>) -> fmt::Result {
        match self.errors().first() {
            Some(first) => write!(f, "{first}"),
            None => Ok(()),
        }
    }
}

impl fmt::Debug for DescriptorError {
    ghost use Rattle.pool_faults.specs.Fault.{first_labelled_text};

    ghost debug_output = { λ e. Some (first_labelled_text e.errors) };

    fn fmt<W: fmt::Write>(&self, f: &mut fmt::Formatter<W>) -> fmt::Result {
        match self.errors().first() {
            Some(first) => {
                let first = Labelled(first);
                write!(f, "{first}")
            }
            None => Ok(()),
        }
    }
}

impl Error for DescriptorError {}

/// The faults of a batch that are told, in order, each as `Labelled` tells it, with a line feed
/// between each two.
#[derive(Clone, Copy)]
pub struct AllFaults<'a>(pub &'a DescriptorError);

impl fmt::Display for AllFaults<'_> {
    ghost use Rattle.pool_faults.specs.Fault.{all_labelled_text};

    ghost output = { λ all. Some (all_labelled_text all.0.now.errors) };

    fn fmt<W: fmt::Write>(&self, f: &mut fmt::Formatter<W>) -> fmt::Result {
        match self.0.errors().split_first() {
            Some((first, further)) => {
                let first = Labelled(first);
                write!(f, "{first}")?;
                fmt_further(f, further)
            }
            None => Ok(()),
        }
    }
}

/// Writes faults as `Labelled` tells them, each behind a line feed.
fn fmt_further<W: fmt::Write>(
    f: &mut fmt::Formatter<W>,
    faults: &[DescriptorErrorKind],
) -> fmt::Result
    ensures { DisplaysOnOk W.write_str_gives f.old result (Some (flat_map further_line faults.now))
        f.new }
{
    for fault in faults {
        let fault = Labelled(fault);
        write!(f, "\n{fault}")?;
    }
    Ok(())
}
