ghost use Rattle.std.specs.Prelude.{◌≡◌, ◌≤◌, ◌<◌, ◌+◌, ◌^◌, ◌++◌, [], ◌∷◌, ℕ, List, OnOk, OnErr};
ghost use Rattle.std.specs.Prelude.{length, map};
ghost use Rattle.plain_data.specs.Maps.{ByNumber};
ghost use Rattle.pool_contents.specs.Extended.{LieBefore, with_extensions, with_number};
ghost use Rattle.pool_contents.specs.Unlinked.{unlinked};

use crate::DescriptorPoolInner;
use crate::room::names_of_files;
use name_resolution::{Sight, imported_files};
use name_tables::NameTable;
use plain_data::{Items, NumberMap};
use pool_types::{
    ExtensionDescriptorInner, FileDescriptorInner, MessageDescriptorInner, syntax_of,
};
use proto_types::FileDescriptorProto;
use record_walk::Counts;
use std::alloc::{AllocError, Global};
use std::collections::BTreeSet;
use std::mem;

/// What a pool holds while a batch is linked into it, and how much it had before. What a roll-back
/// would give stays at each call, after a refusal too, but where extensions have been put into
/// messages.
#[derive(Drop)]
pub struct GrowingPool {
    pub inner: DescriptorPoolInner,
    pub base: Counts,
    ghost files_within: { base.files ≤ length inner.files.items },
    ghost messages_within: { base.messages ≤ length inner.messages.items },
    ghost enums_within: { base.enums ≤ length inner.enums.items },
    ghost services_within: { base.services ≤ length inner.services.items },
    ghost extensions_within: { base.extensions ≤ length inner.extensions.items },
}

impl GrowingPool {
    ghost use Rattle.record_walk.specs.Counts.{counts_in};
    ghost use Rattle.std.specs.FinMap as finite;
    ghost use Rattle.pool_types.specs.declared.contents.message.MessageDescriptorInner.{MessageDescriptorInner};
    ghost use Rattle.pool_types.specs.Contents.{files_of};
    ghost use Rattle.name_resolution.specs.Sight.{AskedBefore};
    ghost use Rattle.pool_contents.specs.Inner.{contents_in, NamesLieIn};
    ghost use Rattle.name_tables.specs.NameTables.{FileNamesBefore};
    ghost use Rattle.pool_contents.specs.Growing.{file_seeing, files_seeing, first_extension};
    ghost use Rattle.pool_contents.specs.Growing.{first_new, new_records, rolled_back};
    ghost use Rattle.pool_contents.specs.Extended.{extended_between, with_extended};
    ghost use Rattle.pool_contents.specs.Extended.{NumbersLieBefore};

    /// A pool before anything of a batch came, and how much it has. Its names mean something in its
    /// files.
    pub fn new(base: Counts, inner: DescriptorPoolInner) -> GrowingPool
        requires counts { base ≡ counts_in (contents_in inner) }
        requires before { NamesLieIn (contents_in inner) }
        ensures base { result.base ≡ base }
        ensures inner { result.inner ≡ inner }
        ensures kept { rolled_back result ≡ contents_in inner }
    {
        GrowingPool { inner, base }
    }

    /// Puts new files behind the others as they are, without anything that linking makes of them.
    /// Their records are moved, and leave empty ones behind.
    ///
    /// # Errors
    /// `AllocError` where memory was refused.
    pub fn add_files(
        &mut self,
        alloc: Global,
        new: &mut [FileDescriptorProto],
    ) -> Result<(), AllocError>
        ensures ok { OnOk result (contents_in self.new.inner
            ≡ record (contents_in self.old.inner)
            { files = self.old.inner.files.items ++ map unlinked new.old }) }
        ensures kept { rolled_back self.new ≡ rolled_back self.old }
    {
        self.inner.files.reserve(new.len())?;
        self.inner.names.reserve(names_of_files(new))?;
        for index in 0..new.len() {
            let file = mem::replace(&mut new[index], FileDescriptorProto::empty(alloc));
            self.inner.files.push(unlinked(alloc, file))?;
        }
        Ok(())
    }

    /// Gives the records of all files that came back, in place of as many others. It takes no
    /// memory.
    pub fn give_back(&mut self, records: &mut [FileDescriptorProto])
        requires { length records.old ≡ length (new_records self.old) }
        ensures given { records.new ≡ new_records self.old }
        ensures kept { rolled_back self.new ≡ rolled_back self.old }
    {
        let first = self.base.files as usize;
        for index in 0..records.len() {
            let item = &mut self.inner.files[first + index];
            mem::swap(&mut records[index], &mut item.raw);
        }
    }

    /// Gives each file that came the files that it imports and those that it sees, of all that
    /// there are.
    ///
    /// # Errors
    /// `AllocError` where memory was refused.
    pub fn see_files(&mut self, alloc: Global) -> Result<(), AllocError>
        requires few { length self.old.inner.files.items < 2 ^ 32 }
        requires places { FileNamesBefore (length self.old.inner.files.items)
            self.old.inner.file_names }
        ensures ok { OnOk result (contents_in self.new.inner
            ≡ record (contents_in self.old.inner) { files = files_seeing self.old }) }
        ensures kept { rolled_back self.new ≡ rolled_back self.old }
    {
        let end = self.inner.files.len() as u32;
        let mut sight = Sight::new(alloc, self.base.files, (end - self.base.files) as usize)?;
        for file in self.base.files..end {
            self.see_file(alloc, &mut sight, file)?;
        }
        Ok(())
    }

    fn see_file(&mut self, alloc: Global, sight: &mut Sight, file: u32) -> Result<(), AllocError>
        requires here { file < length self.old.inner.files.items }
        requires came { first_new self.old ≤ file }
        requires places { FileNamesBefore (length self.old.inner.files.items)
            self.old.inner.file_names }
        requires asked { AskedBefore (files_of (contents_in self.old.inner))
            (finite.get self.old.inner.file_names) file sight.old }
        ensures ok { OnOk result (contents_in self.new.inner
            ≡ record (contents_in self.old.inner) { files = file_seeing self.old file }) }
        ensures kept { rolled_back self.new ≡ rolled_back self.old }
        ensures asked { OnOk result (AskedBefore (files_of (contents_in self.old.inner))
            (finite.get self.old.inner.file_names) (file + 1) sight.new) }
    {
        let inner = &self.inner;
        let imports = inner.files[file as usize].raw.dependency.as_slice();
        let dependencies = imported_files(alloc, &inner.file_names, imports)?;
        let found = dependencies.as_slice();
        let seen = sight.visible_from(&inner.files, &inner.file_names, file, found)?;
        let item = &mut self.inner.files[file as usize];
        item.dependencies = dependencies;
        item.transitive_dependencies = seen;
        Ok(())
    }

    /// Puts each extension that came into the message that it extends.
    ///
    /// # Errors
    /// `AllocError` where memory was refused; the messages are then as they were.
    pub fn extend_messages(&mut self) -> Result<(), AllocError>
        requires few { length self.old.inner.extensions.items < 2 ^ 32 }
        requires numbers { NumbersLieBefore (first_extension self.old)
            self.old.inner.messages.items }
        ensures ok { OnOk result (contents_in self.new.inner
            ≡ with_extended (first_extension self.old) (contents_in self.old.inner)) }
        ensures kept { OnErr result (rolled_back self.new ≡ rolled_back self.old) }
    {
        for index in self.base.extensions..self.inner.extensions.len() as u32 {
            let extended = self.extend_message(index);
            if extended.is_err() {
                self.retract_extensions(index);
                return extended;
            }
        }
        Ok(())
    }

    /// Puts an extension into the message that it extends, if there is one with the index.
    fn extend_message(&mut self, extension: u32) -> Result<(), AllocError>
        requires here { extension < length self.old.inner.extensions.items }
        ensures ok { OnOk result (contents_in self.new.inner
            ≡ record (contents_in self.old.inner) {
              messages = extended_between extension
                  (extension + 1) self.old.inner.extensions.items self.old.inner.messages.items;
            }) }
        ensures err { OnErr result (contents_in self.new.inner ≡ contents_in self.old.inner) }
        ensures base { self.new.base ≡ self.old.base }
    {
        let item = &self.inner.extensions[extension as usize];
        let message = item.extendee as usize;
        if message < self.inner.messages.len() {
            return add_extension(&mut self.inner.messages[message], extension, item);
        }
        Ok(())
    }

    /// Takes the extensions that came, up to an index, out of the messages that they extend, the
    /// last one first.
    fn retract_extensions(&mut self, end: u32)
        requires { end ≤ length self.old.inner.extensions.items }
        ensures back { (ms : List MessageDescriptorInner)
            → NumbersLieBefore self.old.base.extensions ms → self.old.inner.messages.items
            ≡ extended_between self.old.base.extensions end self.old.inner.extensions.items ms
            → self.new.inner.messages.items ≡ ms }
        ensures others { contents_in self.new.inner ≡ record (contents_in self.old.inner)
            { messages = self.new.inner.messages.items } }
        ensures base { self.new.base ≡ self.old.base }
    {
        let mut end = end;
        while self.base.extensions < end {
            end -= 1;
            self.retract_extension(end);
        }
    }

    /// Takes an extension out of the message that it extends, of whose extensions it is the last.
    fn retract_extension(&mut self, extension: u32)
        requires here { extension < length self.old.inner.extensions.items }
        ensures back { (ms : List MessageDescriptorInner) → NumbersLieBefore extension ms
            → self.old.inner.messages.items
            ≡ extended_between extension (extension + 1) self.old.inner.extensions.items ms
            → self.new.inner.messages.items ≡ ms }
        ensures others { contents_in self.new.inner ≡ record (contents_in self.old.inner)
            { messages = self.new.inner.messages.items } }
        ensures base { self.new.base ≡ self.old.base }
    {
        let item = &self.inner.extensions[extension as usize];
        let message = item.extendee as usize;
        if message < self.inner.messages.len() {
            remove_extension(&mut self.inner.messages[message], extension, item);
        }
    }

    /// Takes away all that came, which takes no memory. A name goes with its file.
    pub fn rollback(&mut self)
        ensures { contents_in self.new.inner ≡ rolled_back self.old }
    {
        self.inner.files.truncate(self.base.files as usize);
        self.inner.messages.truncate(self.base.messages as usize);
        self.inner.enums.truncate(self.base.enums as usize);
        self.inner.services.truncate(self.base.services as usize);
        self.inner
            .extensions
            .truncate(self.base.extensions as usize);
        self.inner.names.remove_from(self.base.files);
        self.inner.file_names.remove_from(self.base.files);
    }
}

/// The item of a new file, of which nothing but its syntax is known.
fn unlinked(alloc: Global, file: FileDescriptorProto) -> FileDescriptorInner
    ensures { result ≡ unlinked file }
{
    FileDescriptorInner {
        syntax: syntax_of(&file),
        raw: file,
        dependencies: Items::new(alloc),
        transitive_dependencies: BTreeSet::new(alloc),
    }
}

/// Puts an extension, by its index, behind the list of a message, and into its map of numbers.
fn add_extension(
    message: &mut MessageDescriptorInner,
    index: u32,
    extension: &ExtensionDescriptorInner,
) -> Result<(), AllocError>
    ensures ok { OnOk result
        (message.new ≡ with_extensions ((index, extension.now) ∷ []) message.old) }
    ensures err { OnErr result (message.new ≡ message.old) }
{
    message.extensions.push(index)?;
    let added = add_number(&mut message.extension_numbers, index, extension.number);
    if added.is_err() {
        message.extensions.pop();
    }
    added
}

/// Takes an extension, by its index, out of a message again, of whose extensions it is the last.
fn remove_extension(
    message: &mut MessageDescriptorInner,
    index: u32,
    extension: &ExtensionDescriptorInner,
)
    ensures { (was : MessageDescriptorInner) → LieBefore index was.extension_numbers
        → message.old ≡ with_extensions ((index, extension.now) ∷ []) was → message.new ≡ was }
{
    message.extensions.pop();
    remove_number(&mut message.extension_numbers, index, extension.number);
}

/// Enters an extension for a number, unless the number has one.
fn add_number(numbers: &mut NumberMap, index: u32, number: u32) -> Result<(), AllocError>
    ensures ok { OnOk result (numbers.new ≡ with_number numbers.old (index, number)) }
    ensures err { OnErr result (numbers.new ≡ numbers.old) }
{
    if numbers.get(number).is_some() {
        return Ok(());
    }
    numbers.insert(number, index)
}

/// Takes an extension away from its number again, if the number has that one.
fn remove_number(numbers: &mut NumberMap, index: u32, number: u32)
    ensures { (was : ByNumber ℕ) → LieBefore index was
        → numbers.old ≡ with_number was (index, number) → numbers.new ≡ was }
{
    if let Some(held) = numbers.get(number) {
        if held == index {
            numbers.remove(number);
        }
    }
}
