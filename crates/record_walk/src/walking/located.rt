ghost use Rattle.std.specs.Prelude.{◌≡◌, [], ◌∷◌, OnOk};
ghost use Rattle.record_walk.specs.Visitor.{HasSeen};
ghost use Rattle.record_walk.specs.Shown.{file_shown};
ghost use Rattle.record_walk.specs.Walking.{located};

use super::part::Part;
use super::site::Site;
use crate::visitor::Visitor;
use proto_types::FileDescriptorProto;
use std::alloc::AllocError;

/// Calls the method of a visitor for the kind of a record, as it stands at a site.
macro_rules! show_part {
    ($declaration:expr, $site:expr, $visitor:expr) => {{
        let Site { file, path, name } = $site;
        let file = *file;
        let index = $declaration.index;
        match $declaration.part {
            Part::Message(message, parent) => $visitor.visit_message(
                path, name, file, parent, index, message,
            ),
            Part::Field(field, parent) => $visitor.visit_field(
                path, name, file, parent, index, field,
            ),
            Part::Oneof(oneof, parent) => $visitor.visit_oneof(
                path, name, file, parent, index, oneof,
            ),
            Part::Service(service) => $visitor.visit_service(path, name, file, index, service),
            Part::Method(method, parent) => $visitor.visit_method(
                path, name, file, parent, index, method,
            ),
            Part::Enum(enumeration, parent) => $visitor.visit_enum(
                path,
                name,
                file,
                parent,
                index,
                enumeration,
            ),
            Part::EnumValue(value, parent) => $visitor.visit_enum_value(
                path, name, file, parent, index, value,
            ),
            Part::Extension(extension, parent) => $visitor.visit_extension(
                path, name, file, parent, index, extension,
            ),
        }
    }};
}

/// A record that stands in a file, with its index.
#[derive(Clone, Copy)]
pub(crate) struct Located<'a> {
    pub(crate) index: u32,
    pub(crate) part: Part<'a>,
}

impl Located<'_> {
    /// Shows it to a visitor, as it stands at a site.
    // Inlined, so that the record is not written to memory.
    #[inline(always)]
    pub(crate) fn show<V: Visitor>(self, site: &Site, visitor: &mut V) -> Result<(), AllocError>
        requires { V.ready visitor.old (located site.now self ∷ []) }
        ensures ok { OnOk result (HasSeen (V.after visitor.old) (V.ready visitor.old)
            (V.after visitor.new) (V.ready visitor.new) (located site.now self.entry ∷ [])) }
        ensures kept { V.kept visitor.new ≡ V.kept visitor.old }
        ensures borrows { V.borrows visitor.new ≡ V.borrows visitor.old }
    {
        show_part!(self, site, visitor)
    }

    /// Shows it to a visitor whose type is not known, as it stands at a site.
    pub(crate) fn show_object(
        self,
        site: &Site,
        visitor: &mut dyn Visitor,
    ) -> Result<(), AllocError>
        requires { ready visitor.old (located site.now self ∷ []) }
        ensures ok { OnOk result (HasSeen (after visitor.old) (ready visitor.old)
            (after visitor.new) (ready visitor.new) (located site.now self.entry ∷ [])) }
        ensures kept { kept visitor.new ≡ kept visitor.old }
    {
        show_part!(self, site, visitor)
    }
}

/// Shows a visitor whose type is not known the file with an index.
pub(crate) fn show_file(
    index: u32,
    file: &FileDescriptorProto,
    visitor: &mut dyn Visitor,
) -> Result<(), AllocError>
    requires { ready visitor.old (file_shown [] index file.now ∷ []) }
    ensures ok { OnOk result (HasSeen (after visitor.old) (ready visitor.old) (after visitor.new)
        (ready visitor.new) (file_shown [] index file.now ∷ [])) }
    ensures kept { kept visitor.new ≡ kept visitor.old }
{
    visitor.visit_file(&[], index, file)
}
