ghost use Rattle.std.specs.Prelude.{◌≡◌, [], ◌∷◌, ◌++◌, map, IsOk, IfOk, OnOk};
ghost use Rattle.record_walk.specs.Fits.{counts_with};
ghost use Rattle.record_walk.specs.Declarations.{declarations};
ghost use Rattle.record_walk.specs.Declaration.{declaration_of};

use plain_data::{Items, Text};
use proto_types::{
    DescriptorProto, EnumDescriptorProto, EnumValueDescriptorProto, FieldDescriptorProto,
    FileDescriptorProto, MethodDescriptorProto, OneofDescriptorProto, ServiceDescriptorProto,
};
use record_walk::{Counts, Declaration, DeclarationKind, Place, Visitor, walk_files};
use std::alloc::{AllocError, Global};
use std::marker::Model;

/// A visitor that keeps the list of what it is shown. Contracts see it as that list.
#[derive(Drop)]
pub struct Lister {
    alloc: Global,
    list: Vec<Declaration>,
}

impl Model for Lister {
    ghost use Rattle.std.specs.Prelude.{List};
    ghost use Rattle.record_walk.specs.declared.declaration.Declaration.{Declaration};

    ghost Value = { List Declaration };

    ghost view = { λ l. l.list.items };
}

impl Lister {
    /// A lister that was shown nothing, which takes no memory.
    pub fn new(alloc: Global) -> Lister
        ensures { result ≡ [] }
    {
        Lister {
            alloc,
            list: Vec::new(alloc),
        }
    }

    /// What it was shown, in order.
    pub fn declarations(&self) -> &[Declaration]
        ensures { result.now ≡ self.now }
    {
        self.list.as_slice()
    }

    /// Keeps a declaration of a kind.
    fn add(&mut self, kind: DeclarationKind, place: Place) -> Result<(), AllocError>
        ensures { OnOk result (self.new ≡ self.old
            ++ record {
              kind = kind;
              file = place.entry.file;
              parent = place.entry.parent;
              index = place.entry.index;
              path = place.entry.path.now;
              full_name = place.entry.full_name.now;
            } ∷ []) }
    {
        let path = Items::from_slice(self.alloc, place.path)?;
        let full_name = Text::from_str(self.alloc, place.full_name)?;
        self.list.push(Declaration {
            kind,
            file: place.file,
            parent: place.parent,
            index: place.index,
            path,
            full_name,
        })?;
        Ok(())
    }
}

impl Visitor for Lister {
    ghost use Rattle.std.specs.Prelude.{◌++◌, map};
    ghost use Rattle.pool_types.specs.Contents.{no_contents};
    ghost use Rattle.record_walk.specs.Declaration.{declaration_of};
    ghost use Rattle.record_walk.specs.Telling.{untold};

    ghost after = { λ l ds.
        record { contents = no_contents; faults = untold; listed = l ++ map declaration_of ds } };

    ghost ready = { λ _ _. Unit {0} };

    ghost kept = { λ _. no_contents };

    ghost borrows = { λ _. [] };

    ghost front_ready = { λ _ _ _ _. tt };

    fn visit_file(
        &mut self,
        path: &[i32],
        index: u32,
        file: &FileDescriptorProto,
    ) -> Result<(), AllocError> {
        let place = Place {
            file: index,
            parent: None,
            index,
            path,
            full_name: file.name(),
        };
        self.add(DeclarationKind::File, place)
    }

    fn visit_message(
        &mut self,
        path: &[i32],
        full_name: &str,
        file: u32,
        parent: Option<u32>,
        index: u32,
        _message: &DescriptorProto,
    ) -> Result<(), AllocError> {
        let kind = DeclarationKind::Message;
        let place = Place {
            file,
            parent,
            index,
            path,
            full_name,
        };
        self.add(kind, place)
    }

    fn visit_field(
        &mut self,
        path: &[i32],
        full_name: &str,
        file: u32,
        parent: u32,
        index: u32,
        _field: &FieldDescriptorProto,
    ) -> Result<(), AllocError> {
        let kind = DeclarationKind::Field;
        let place = Place {
            file,
            parent: Some(parent),
            index,
            path,
            full_name,
        };
        self.add(kind, place)
    }

    fn visit_oneof(
        &mut self,
        path: &[i32],
        full_name: &str,
        file: u32,
        parent: u32,
        index: u32,
        _oneof: &OneofDescriptorProto,
    ) -> Result<(), AllocError> {
        let kind = DeclarationKind::Oneof;
        let place = Place {
            file,
            parent: Some(parent),
            index,
            path,
            full_name,
        };
        self.add(kind, place)
    }

    fn visit_service(
        &mut self,
        path: &[i32],
        full_name: &str,
        file: u32,
        index: u32,
        _service: &ServiceDescriptorProto,
    ) -> Result<(), AllocError> {
        let kind = DeclarationKind::Service;
        let place = Place {
            file,
            parent: None,
            index,
            path,
            full_name,
        };
        self.add(kind, place)
    }

    fn visit_method(
        &mut self,
        path: &[i32],
        full_name: &str,
        file: u32,
        parent: u32,
        index: u32,
        _method: &MethodDescriptorProto,
    ) -> Result<(), AllocError> {
        let kind = DeclarationKind::Method;
        let place = Place {
            file,
            parent: Some(parent),
            index,
            path,
            full_name,
        };
        self.add(kind, place)
    }

    fn visit_enum(
        &mut self,
        path: &[i32],
        full_name: &str,
        file: u32,
        parent: Option<u32>,
        index: u32,
        _enumeration: &EnumDescriptorProto,
    ) -> Result<(), AllocError> {
        let kind = DeclarationKind::Enum;
        let place = Place {
            file,
            parent,
            index,
            path,
            full_name,
        };
        self.add(kind, place)
    }

    fn visit_enum_value(
        &mut self,
        path: &[i32],
        full_name: &str,
        file: u32,
        parent: u32,
        index: u32,
        _value: &EnumValueDescriptorProto,
    ) -> Result<(), AllocError> {
        let kind = DeclarationKind::EnumValue;
        let place = Place {
            file,
            parent: Some(parent),
            index,
            path,
            full_name,
        };
        self.add(kind, place)
    }

    fn visit_extension(
        &mut self,
        path: &[i32],
        full_name: &str,
        file: u32,
        parent: Option<u32>,
        index: u32,
        _extension: &FieldDescriptorProto,
    ) -> Result<(), AllocError> {
        let kind = DeclarationKind::Extension;
        let place = Place {
            file,
            parent,
            index,
            path,
            full_name,
        };
        self.add(kind, place)
    }
}

/// What files declare, in order, each without its record, numbered on from the counts of a pool.
///
/// The counts of the files and the base together must fit, as `Counts::with_files` says, or
/// `Counts::of` and then `Counts::plus`.
///
/// # Errors
/// `AllocError` where memory was refused.
pub fn list_declarations(
    alloc: Global,
    base: Counts,
    files: &[FileDescriptorProto],
) -> Result<Vec<Declaration>, AllocError>
    requires fits { IsOk (counts_with base files.now) }
    ensures { IfOk result (λ list. list.items ≡ map declaration_of (declarations base files.now)) }
{
    let mut lister = Lister::new(alloc);
    walk_files(alloc, base, files, &mut lister)?;
    let Lister { list, .. } = lister;
    Ok(list)
}
