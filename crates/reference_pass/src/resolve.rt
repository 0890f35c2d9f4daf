ghost use Rattle.reference_pass.specs.NamesBegin.{NamesBegin};

use crate::items::NewItems;
use crate::{
    EarlierExtensions, PoolExtensions, Reading, check_imports, read_extension, read_message,
    read_service,
};
use field_rules::read_enum;
use proto_types::{
    DescriptorProto, EnumDescriptorProto, EnumValueDescriptorProto, FieldDescriptorProto,
    FileDescriptorProto, MethodDescriptorProto, OneofDescriptorProto, ServiceDescriptorProto,
};
use record_walk::{Place, Visitor};
use std::alloc::AllocError;

/// The second pass: it reads a batch against a pool whose files and names are those of the batch as
/// well, makes the items of messages, enums, services and extensions, and gathers the faults of
/// imports, of fields, of extensions, of values and of references. Extensions are read behind those
/// of the pool. A message is read with its oneofs and fields, an enum with its values, and a
/// service with its methods; it need not be shown these parts. The full name of each declaration
/// that it is shown ends with the declared name, and its lists are short enough for a pool.
///
/// What it shows once a list has been shown to it is the fold of one step over the list. It changes
/// nothing of the pool.
#[derive(Drop)]
pub struct ResolveVisitor<'a> {
    pub reading: Reading<'a>,
    pub pool: PoolExtensions<'a>,
    pub items: NewItems,
    ghost names_begin: { NamesBegin items.messages.items items.enums.items items.services.items
        items.extensions.items },
}

impl Visitor for ResolveVisitor<'_> {
    ghost use Rattle.std.specs.List.{fold};
    ghost use Rattle.std.specs.Prelude.{[]};
    ghost use Rattle.pool_types.specs.Contents.{no_contents};
    ghost use Rattle.record_walk.specs.FullNames.{CanBeRead, front-read};
    ghost use Rattle.reference_pass.specs.Resolve.{reference_progress, reference_step};
    ghost use Rattle.reference_pass.specs.Reading.{setting_of};
    ghost use Rattle.reference_pass.specs.State.{state_of};

    ghost after = { λ v ds.
        reference_progress (fold (reference_step (setting_of v.reading)) (state_of v) ds) };

    ghost ready = { λ _ ds. CanBeRead ds };

    ghost kept = { λ v. record no_contents { extensions = v.pool.extensions.now } };

    ghost borrows = { λ _. [] };

    ghost front_ready = { λ _ ds es. front-read ds es };

    fn visit_file(
        &mut self,
        _path: &[i32],
        index: u32,
        file: &FileDescriptorProto,
    ) -> Result<(), AllocError> {
        self.reading.enter_package(index);
        check_imports(&mut self.reading, index, file)
    }

    fn visit_message(
        &mut self,
        path: &[i32],
        full_name: &str,
        file: u32,
        parent: Option<u32>,
        index: u32,
        message: &DescriptorProto,
    ) -> Result<(), AllocError> {
        let place = Place {
            file,
            parent,
            index,
            path,
            full_name,
        };
        let item = read_message(&mut self.reading, place, message)?;
        self.items.push_message(item)
    }

    #[tactic(auto, using(crate::proofs::Seen::passed))]
    fn visit_field(
        &mut self,
        _path: &[i32],
        _full_name: &str,
        _file: u32,
        _parent: u32,
        _index: u32,
        _field: &FieldDescriptorProto,
    ) -> Result<(), AllocError> {
        Ok(())
    }

    #[tactic(auto, using(crate::proofs::Seen::passed))]
    fn visit_oneof(
        &mut self,
        _path: &[i32],
        _full_name: &str,
        _file: u32,
        _parent: u32,
        _index: u32,
        _oneof: &OneofDescriptorProto,
    ) -> Result<(), AllocError> {
        Ok(())
    }

    fn visit_service(
        &mut self,
        path: &[i32],
        full_name: &str,
        file: u32,
        index: u32,
        service: &ServiceDescriptorProto,
    ) -> Result<(), AllocError> {
        let place = Place {
            file,
            parent: None,
            index,
            path,
            full_name,
        };
        let item = read_service(&mut self.reading, place, service)?;
        self.items.push_service(item)
    }

    #[tactic(auto, using(crate::proofs::Seen::passed))]
    fn visit_method(
        &mut self,
        _path: &[i32],
        _full_name: &str,
        _file: u32,
        _parent: u32,
        _index: u32,
        _method: &MethodDescriptorProto,
    ) -> Result<(), AllocError> {
        Ok(())
    }

    fn visit_enum(
        &mut self,
        path: &[i32],
        full_name: &str,
        file: u32,
        parent: Option<u32>,
        index: u32,
        enumeration: &EnumDescriptorProto,
    ) -> Result<(), AllocError> {
        let place = Place {
            file,
            parent,
            index,
            path,
            full_name,
        };
        let item = read_enum(&mut self.reading.faults, place, enumeration)?;
        self.items.push_enum(item)
    }

    #[tactic(auto, using(crate::proofs::Seen::passed))]
    fn visit_enum_value(
        &mut self,
        _path: &[i32],
        _full_name: &str,
        _file: u32,
        _parent: u32,
        _index: u32,
        _value: &EnumValueDescriptorProto,
    ) -> Result<(), AllocError> {
        Ok(())
    }

    fn visit_extension(
        &mut self,
        path: &[i32],
        full_name: &str,
        file: u32,
        parent: Option<u32>,
        index: u32,
        extension: &FieldDescriptorProto,
    ) -> Result<(), AllocError> {
        let place = Place {
            file,
            parent,
            index,
            path,
            full_name,
        };
        let earlier = EarlierExtensions {
            pool: self.pool,
            new: &self.items,
        };
        let item = read_extension(&mut self.reading, place, extension, earlier)?;
        self.items.push_extension(item)
    }

    fn skips_parts(&self) -> bool {
        true
    }
}
