ghost use Rattle.std.specs.Prelude.{◌≡◌, [], ◌++◌, length};
ghost use Rattle.example_visitor.specs.FieldVisitor.{fields_in, longest_path};

use plain_data::{Items, Text};
use proto_types::{
    DescriptorProto, EnumDescriptorProto, EnumValueDescriptorProto, FieldDescriptorProto,
    FileDescriptorProto, MethodDescriptorProto, OneofDescriptorProto, ServiceDescriptorProto,
};
use record_walk::{Declaration, DeclarationKind, Visitor};
use std::alloc::{AllocError, Global};
use std::marker::Model;

/// A visitor that keeps the fields of what it is shown. Contracts see it as the list of these.
#[derive(Drop)]
pub struct FieldVisitor {
    alloc: Global,
    fields: Vec<Declaration>,
}

impl Model for FieldVisitor {
    ghost use Rattle.std.specs.Prelude.{List};
    ghost use Rattle.record_walk.specs.declared.declaration.Declaration.{Declaration};

    ghost Value = { List Declaration };

    ghost view = { λ visitor. visitor.fields.items };
}

impl FieldVisitor {
    /// A visitor that was shown nothing, which takes no memory.
    pub fn new(alloc: Global) -> FieldVisitor
        ensures { result ≡ [] }
    {
        let fields = Vec::new(alloc);
        FieldVisitor { alloc, fields }
    }

    /// How many fields it was shown.
    pub fn count(&self) -> usize
        ensures { result ≡ length self.now }
    {
        self.fields.len()
    }

    /// The length of the longest path of a field that it was shown, or 0 where it was shown none.
    pub fn longest_path(&self) -> usize
        ensures { result ≡ longest_path self.now }
    {
        self.fields.iter().fold(0, |longest, field| longest.max(field.path.as_slice().len()))
    }
}

impl Visitor for FieldVisitor {
    ghost use Rattle.pool_types.specs.Contents.{no_contents};
    ghost use Rattle.record_walk.specs.Telling.{untold};

    ghost after = { λ v ds.
        record { contents = no_contents; faults = untold; listed = v ++ fields_in ds } };

    ghost ready = { λ _ _. Unit {0} };

    ghost kept = { λ _. no_contents };

    ghost borrows = { λ _. [] };

    ghost front_ready = { λ _ _ _ _. tt };

    fn visit_file(&mut self, _: &[i32], _: u32, _: &FileDescriptorProto) -> Result<(), AllocError> {
        Ok(())
    }

    fn visit_message(
        &mut self,
        _: &[i32],
        _: &str,
        _: u32,
        _: Option<u32>,
        _: u32,
        _: &DescriptorProto,
    ) -> Result<(), AllocError> {
        Ok(())
    }

    fn visit_field(
        &mut self,
        path: &[i32],
        full_name: &str,
        file: u32,
        parent: u32,
        index: u32,
        _: &FieldDescriptorProto,
    ) -> Result<(), AllocError> {
        self.fields.push(Declaration {
            kind: DeclarationKind::Field,
            file,
            parent: Some(parent),
            index,
            path: Items::from_slice(self.alloc, path)?,
            full_name: Text::from_str(self.alloc, full_name)?,
        })?;
        Ok(())
    }

    fn visit_oneof(
        &mut self,
        _: &[i32],
        _: &str,
        _: u32,
        _: u32,
        _: u32,
        _: &OneofDescriptorProto,
    ) -> Result<(), AllocError> {
        Ok(())
    }

    fn visit_service(
        &mut self,
        _: &[i32],
        _: &str,
        _: u32,
        _: u32,
        _: &ServiceDescriptorProto,
    ) -> Result<(), AllocError> {
        Ok(())
    }

    fn visit_method(
        &mut self,
        _: &[i32],
        _: &str,
        _: u32,
        _: u32,
        _: u32,
        _: &MethodDescriptorProto,
    ) -> Result<(), AllocError> {
        Ok(())
    }

    fn visit_enum(
        &mut self,
        _: &[i32],
        _: &str,
        _: u32,
        _: Option<u32>,
        _: u32,
        _: &EnumDescriptorProto,
    ) -> Result<(), AllocError> {
        Ok(())
    }

    fn visit_enum_value(
        &mut self,
        _: &[i32],
        _: &str,
        _: u32,
        _: u32,
        _: u32,
        _: &EnumValueDescriptorProto,
    ) -> Result<(), AllocError> {
        Ok(())
    }

    fn visit_extension(
        &mut self,
        _: &[i32],
        _: &str,
        _: u32,
        _: Option<u32>,
        _: u32,
        _: &FieldDescriptorProto,
    ) -> Result<(), AllocError> {
        Ok(())
    }
}
