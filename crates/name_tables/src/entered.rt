ghost use Rattle.std.specs.Prelude.{◌≡◌, ◌≤◌, ◌<◌, ◌++◌, ◌∷◌, [], ℕ, length, IsTrue, IfOk, OnOk};
ghost use Rattle.std.specs.Prelude.{OnErr, None, Some};
ghost use Rattle.std.specs.List.{slice_get};
ghost use Rattle.std.specs.Option.{option_copied};
ghost use Rattle.name_tables.specs.Entered.{Enters, found_before, IsRising, Removes, value_at};

use pool_types::Definition;
use std::alloc::{AllocError, Global};
use std::marker::Model;

/// A value that lies in a file.
pub(crate) trait InFile: Drop {
    ghost file_of: { Self → ℕ };

    /// The file that it lies in.
    fn file(&self) -> u32
        ensures { result ≡ file_of self.now };

    /// An equal value.
    ///
    /// # Errors
    /// `AllocError` where memory was refused.
    fn copy(&self, alloc: Global) -> Result<Self, AllocError>
        ensures { IfOk result (λ copy. copy ≡ self.now) };
}

impl InFile for Definition {
    ghost file_of = { λ definition. definition.file };

    fn file(&self) -> u32 {
        self.file
    }

    fn copy(&self, alloc: Global) -> Result<Definition, AllocError> {
        self.clone(alloc)
    }
}

impl InFile for u32 {
    ghost file_of = { λ file. file };

    fn file(&self) -> u32 {
        *self
    }

    fn copy(&self, _alloc: Global) -> Result<u32, AllocError> {
        Ok(*self)
    }
}

/// Values that were entered under numbers. Those that lie in later files can be taken away.
/// Contracts see them as the list of the value of each number, or none.
#[derive(Drop)]
pub(crate) struct Entered<T: InFile> {
    values: Vec<Option<T>>,
    order: Order,
}

/// What is known of the files of values.
#[derive(Clone, Copy)]
struct Order {
    /// None lies in a later file.
    newest: u32,
    /// That none lies in an earlier file than one of a lower number, as where each is entered
    /// behind all others and the files come in order.
    is_rising: bool,
}

impl<T: InFile> Model for Entered<T> {
    ghost use Rattle.std.specs.Prelude.{List};
    ghost use Rattle.std.specs.Coded.{coded_list, coded_option};
    ghost use Rattle.std.specs.declared.option.Option.{Option};
    ghost use Rattle.name_tables.specs.Entered.{AreOrdered};

    ghost Value = { List (Option T) };

    ghost coded = { coded_list (coded_option T.code) };

    ghost view = { λ entered. entered.values.items };

    ghost invariant = { λ entered. AreOrdered T.file_of entered.values.items entered.order };
}

impl Order {
    /// What is known once a value of a file is entered, behind all others or not.
    fn with_file(self, file: u32, is_last: bool) -> Order
        ensures newest { self.newest ≤ result.newest }
        ensures file { file ≤ result.newest }
        ensures rising { IsTrue result.is_rising
            → IsTrue self.is_rising × IsTrue is_last × (self.newest ≤ file) }
    {
        Order {
            newest: self.newest.max(file),
            is_rising: self.is_rising && is_last && self.newest <= file,
        }
    }

    /// What is known once no value lies in a file or in a later one.
    fn before(self, file: u32) -> Order
        ensures newest { (n : ℕ) → n ≤ self.newest → n < file → n ≤ result.newest }
        ensures rising { result.is_rising ≡ self.is_rising }
    {
        Order {
            newest: self.newest.min(file),
            ..self
        }
    }
}

impl<T: InFile> Entered<T> {
    /// No values, which take no memory.
    pub(crate) fn new(alloc: Global) -> Entered<T>
        ensures { result ≡ [] }
    {
        let order = Order {
            newest: 0,
            is_rising: true,
        };
        Entered {
            values: Vec::new(alloc),
            order,
        }
    }

    /// The last number that has a value, and one more; 0 where none has one.
    pub(crate) fn len(&self) -> usize
        ensures { result ≡ length self.now }
    {
        self.values.len()
    }

    /// The value of a number, or none.
    pub(crate) fn get(&self, number: usize) -> Option<&T>
        ensures { option_copied result ≡ value_at self.now number }
    {
        value_of(&self.values, number)
    }

    /// Makes room for so many numbers more.
    ///
    /// # Errors
    /// `AllocError` where memory was refused.
    pub(crate) fn reserve(&mut self, more: usize) -> Result<(), AllocError>
        ensures { self.new ≡ self.old }
    {
        self.values.reserve(more)
    }

    /// Enters a value under a number.
    ///
    /// # Errors
    /// `AllocError` where memory was refused. Each number has then what it had.
    #[inline(always)]
    pub(crate) fn insert(&mut self, number: u32, value: T) -> Result<(), AllocError>
        ensures ok { OnOk result (Enters self.old self.new number value) }
        ensures err { OnErr result ((k : ℕ) → value_at self.new k ≡ value_at self.old k) }
        ensures len { (n : ℕ) → length self.old ≤ n → number < n → length self.new ≤ n }
    {
        let number = number as usize;
        pad(&mut self.values, number)?;
        self.order = self
            .order
            .with_file(value.file(), number == self.values.len());
        set(&mut self.values, number, value)
    }

    /// Takes away the values that lie in a file or in a later one. Where files rise with numbers,
    /// no more is looked at than what goes.
    pub(crate) fn remove_from(&mut self, file: u32)
        ensures values { (k : ℕ)
            → value_at self.new k ≡ found_before T.file_of file (value_at self.old k) }
        ensures len { length self.new ≤ length self.old }
    {
        let first = self.first_from(file);
        remove_all(&mut self.values, first, file);
        trim(&mut self.values);
        self.order = self.order.before(file);
    }

    /// A number before which no value lies in a file or in a later one.
    fn first_from(&self, file: u32) -> usize
        ensures within { result ≤ length self.now }
        ensures earlier { (k : ℕ) (x : T) → k < result → value_at self.now k ≡ Some x
            → T.file_of x < file }
    {
        if self.order.is_rising {
            numbers_before(&self.values, file)
        } else {
            0
        }
    }

    /// A copy of the values.
    ///
    /// # Errors
    /// `AllocError` where memory was refused.
    pub(crate) fn clone(&self, alloc: Global) -> Result<Entered<T>, AllocError>
        ensures { IfOk result (λ copy. copy ≡ self.now) }
    {
        let mut values = Vec::with_capacity(alloc, self.values.len())?;
        for value in &self.values {
            values.push(copy_option(alloc, value)?)?;
        }
        Ok(Entered {
            values,
            order: self.order,
        })
    }
}

/// A copy of a value, if there is one.
///
/// # Errors
/// `AllocError` where memory was refused.
fn copy_option<T: InFile>(alloc: Global, value: &Option<T>) -> Result<Option<T>, AllocError>
    ensures { IfOk result (λ copy. copy ≡ value.now) }
{
    match value {
        Some(value) => Ok(Some(value.copy(alloc)?)),
        None => Ok(None),
    }
}

/// The value of a number, or none.
fn value_of<T>(values: &[Option<T>], number: usize) -> Option<&T>
    ensures { option_copied result ≡ value_at values.now number }
{
    values.get(number)?.as_ref()
}

/// Has at least as many numbers as a number: those that come have no value.
///
/// # Errors
/// `AllocError` where memory was refused.
fn pad<T: Drop>(values: &mut Vec<Option<T>>, number: usize) -> Result<(), AllocError>
    ensures same { (k : ℕ) → value_at values.new.items k ≡ value_at values.old.items k }
    ensures len { (n : ℕ) → length values.old.items ≤ n → number < n
        → length values.new.items ≤ n }
    ensures ok { OnOk result (number ≤ length values.new.items) }
{
    while values.len() < number {
        values.push(None)?;
    }
    Ok(())
}

/// Sets the value of a number.
///
/// # Errors
/// `AllocError` where memory was refused.
// Inlined, and with room made first, so that a value is made where it stays.
#[inline(always)]
fn set<T: Drop>(values: &mut Vec<Option<T>>, number: usize, value: T) -> Result<(), AllocError>
    requires { number ≤ length values.old.items }
    ensures ok { OnOk result (Enters values.old.items values.new.items number value) }
    ensures err { OnErr result (values.new.items ≡ values.old.items) }
    ensures len { (n : ℕ) → length values.old.items ≤ n → number < n
        → length values.new.items ≤ n }
{
    if number == values.len() {
        values.reserve(1)?;
        values.push_reserved(Some(value));
    } else {
        values[number] = Some(value);
    }
    Ok(())
}

/// How many numbers stand before the first from which on no value lies in an earlier file than a
/// given one.
fn numbers_before<T: InFile>(values: &[Option<T>], file: u32) -> usize
    requires { IsRising T.file_of values.now }
    ensures within { result ≤ length values.now }
    ensures earlier { (k : ℕ) (x : T) → k < result → value_at values.now k ≡ Some x
        → T.file_of x < file }
{
    let mut count = values.len();
    while count > 0 && !lies_before(value_of(values, count - 1), file) {
        count -= 1;
    }
    count
}

/// Whether there is a value, and it lies in a file before a given one.
fn lies_before<T: InFile>(value: Option<&T>, file: u32) -> bool
    ensures { IsTrue result → (x : T) × (option_copied value.entry ≡ Some x)
        × (T.file_of x < file) }
{
    match value {
        Some(value) => value.file() < file,
        None => false,
    }
}

/// Takes away the values from a number on that lie in a file or in a later one.
fn remove_all<T: InFile>(values: &mut Vec<Option<T>>, first: usize, file: u32)
    ensures later { (k : ℕ) → first ≤ k → value_at values.new.items k
        ≡ found_before T.file_of file (value_at values.old.items k) }
    ensures earlier { (k : ℕ) → k < first
        → value_at values.new.items k ≡ value_at values.old.items k }
    ensures len { length values.new.items ≡ length values.old.items }
{
    for number in first..values.len() {
        remove(values, number, file);
    }
}

/// Takes away the value of one number, where it lies in a file or in a later one.
fn remove<T: InFile>(values: &mut Vec<Option<T>>, number: usize, file: u32)
    ensures removes { Removes T.file_of values.old.items values.new.items number file }
    ensures len { length values.new.items ≡ length values.old.items }
{
    match value_of(values, number) {
        Some(value) if value.file() >= file => values[number] = None,
        _ => {}
    }
}

/// Takes away the last numbers as long as they have no value.
fn trim<T: Drop>(values: &mut Vec<Option<T>>)
    ensures same { (k : ℕ) → value_at values.new.items k ≡ value_at values.old.items k }
    ensures len { length values.new.items ≤ length values.old.items }
{
    while let Some(None) = values.last() {
        values.pop();
    }
}
