ghost use Rattle.std.specs.Prelude.{◌≡◌, ◌<◌, ◌^◌, List, [], ◌∷◌, None, IsTrue, OnOk, MatchOption};
ghost use Rattle.record_walk.specs.Parts.{AreParts, PassesLists};
ghost use Rattle.record_walk.specs.Walking.{parent_in, proto_of, protos_in};
ghost use Rattle.record_walk.specs.Cursor.{Line, Steps, file_lines, inner_lines, line, line_in};
ghost use Rattle.record_walk.specs.Cursor.{lines, message_lines, stacked, stacked_all};

use super::part::Part;
use super::records::Records;
use super::row::{Depth, EntryPosition, Row};
use proto_types::{DescriptorProto, FileDescriptorProto, tag};
use std::alloc::{AllocError, Global};

/// The lists that are still to be gone through, the next one last. None is empty.
#[derive(Drop)]
pub(crate) struct Rows<'a> {
    pub(crate) list: Vec<Row<'a>>,
}

impl<'a> Rows<'a> {
    /// No lists, which takes no memory.
    pub(crate) fn new(alloc: Global) -> Rows<'a>
        ensures { lines result ≡ [] }
    {
        Rows {
            list: Vec::new(alloc),
        }
    }

    /// Takes all lists off.
    pub(crate) fn clear(&mut self)
        ensures { lines self.new ≡ [] }
    {
        self.list.clear();
    }

    /// Takes the next list off.
    pub(crate) fn pop(&mut self) -> Option<Row<'a>>
        ensures { MatchOption result ((lines self.old ≡ []) × (lines self.new ≡ []))
            (λ row. lines self.old ≡ line_in row ∷ lines self.new) }
    {
        self.list.pop()
    }

    /// Takes the next record off its list, and answers it and its position.
    pub(crate) fn step(&mut self) -> Option<(Part<'a>, EntryPosition)>
        requires { (l : Line) (ls : List Line) → lines self.old ≡ l ∷ ls
            → l.position < 2 ^ 31 }
        ensures { MatchOption result ((lines self.old ≡ []) × (lines self.new ≡ []))
            (λ first. Steps first.0 first.1 (lines self.old) (lines self.new)) }
    {
        let Row { records, at } = self.list.pop()?;
        let (part, rest) = records.split_first()?;
        if !rest.is_empty() {
            self.list.push_reserved(Row {
                records: rest,
                at: at.next(),
            });
        }
        Some((part, at))
    }

    /// Takes off the lists of parts that come next, where that is wanted.
    pub(crate) fn pass_parts(&mut self, wanted: bool)
        ensures { PassesLists wanted (lines self.old) (lines self.new) }
    {
        while wanted && self.begins_with_parts() {
            self.pop();
        }
    }

    /// Takes the next list off, if it is one of parts.
    pub(crate) fn pop_parts(&mut self) -> Option<Row<'a>>
        ensures { MatchOption result (lines self.new ≡ lines self.old)
            (λ row. (lines self.old ≡ line_in row ∷ lines self.new)
            × AreParts (protos_in row.records)) }
    {
        if !self.begins_with_parts() {
            return None;
        }
        self.pop()
    }

    /// Whether a list of parts comes next.
    fn begins_with_parts(&self) -> bool
        ensures { IsTrue result → (l : Line) × (ls : List Line) × (lines self.now ≡ l ∷ ls)
            × AreParts l.protos }
    {
        match self.list.last() {
            Some(row) => row.records.hold_parts(),
            None => false,
        }
    }

    /// Adds a list, which is the next one, unless it is empty.
    // Inlined, so that an empty list costs no more than a look at its length.
    #[inline(always)]
    pub(crate) fn push(&mut self, records: Records<'a>, at: EntryPosition) -> Result<(), AllocError>
        ensures { OnOk result (lines self.new
            ≡ stacked (line at (parent_in records.entry) (protos_in records.entry))
            (lines self.old)) }
    {
        if !records.is_empty() {
            self.list.push(Row { records, at })?;
        }
        Ok(())
    }

    /// Adds the lists of a message.
    fn push_message(
        &mut self,
        message: &'a DescriptorProto,
        index: u32,
        depth: Depth,
    ) -> Result<(), AllocError>
        ensures { OnOk result (lines self.new
            ≡ stacked_all (message_lines depth index message.now) (lines self.old)) }
    {
        let parent = Some(index);
        let extensions = Records::Extensions(message.extension.as_slice(), parent);
        self.push(extensions, depth.start(tag::message::EXTENSION))?;
        let enums = Records::Enums(message.enum_type.as_slice(), parent);
        self.push(enums, depth.start(tag::message::ENUM_TYPE))?;
        let nested = Records::Messages(message.nested_type.as_slice(), parent);
        self.push(nested, depth.start(tag::message::NESTED_TYPE))?;
        let fields = Records::Fields(message.field.as_slice(), index);
        self.push(fields, depth.start(tag::message::FIELD))?;
        let oneofs = Records::Oneofs(message.oneof_decl.as_slice(), index);
        self.push(oneofs, depth.start(tag::message::ONEOF_DECL))
    }

    /// Adds the lists of a record with an index: they stand at a depth, but the values of an enum
    /// are named in the scope around it.
    pub(crate) fn push_inner(
        &mut self,
        part: Part<'a>,
        index: u32,
        inside: Depth,
        around: usize,
    ) -> Result<(), AllocError>
        ensures { OnOk result (lines self.new
            ≡ stacked_all (inner_lines inside around index (proto_of part.entry))
            (lines self.old)) }
    {
        match part {
            Part::Message(message, _) => self.push_message(message, index, inside),
            Part::Enum(enumeration, _) => {
                let beside = Depth {
                    path: inside.path,
                    scope: around,
                };
                let values = Records::EnumValues(enumeration.value.as_slice(), index);
                self.push(values, beside.start(tag::enum_::VALUE))
            }
            Part::Service(service) => {
                let methods = Records::Methods(service.method.as_slice(), index);
                self.push(methods, inside.start(tag::service::METHOD))
            }
            _ => Ok(()),
        }
    }

    /// Adds the lists of a file.
    pub(crate) fn push_file(
        &mut self,
        file: &'a FileDescriptorProto,
        depth: Depth,
    ) -> Result<(), AllocError>
        ensures { OnOk result
            (lines self.new ≡ stacked_all (file_lines depth file.now) (lines self.old)) }
    {
        let extensions = Records::Extensions(file.extension.as_slice(), None);
        self.push(extensions, depth.start(tag::file::EXTENSION))?;
        let services = Records::Services(file.service.as_slice());
        self.push(services, depth.start(tag::file::SERVICE))?;
        let enums = Records::Enums(file.enum_type.as_slice(), None);
        self.push(enums, depth.start(tag::file::ENUM_TYPE))?;
        let messages = Records::Messages(file.message_type.as_slice(), None);
        self.push(messages, depth.start(tag::file::MESSAGE_TYPE))
    }
}
