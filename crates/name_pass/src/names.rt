ghost use Rattle.std.specs.Prelude.{◌≡◌, ◌≤◌, ◌/◌, ◌-◌, ◌∷◌, [], IfOk, OnOk, Some, length, map};
ghost use Rattle.proto_types.specs.Names.{fronts};
ghost use Rattle.record_walk.specs.Faults.{Tells, named_files};
ghost use Rattle.name_pass.specs.Names.{definition_at, naming_field, packages, package_entry};
ghost use Rattle.name_pass.specs.FirstPass.{holder_faults};

use crate::{check_camel_case_names, check_enum_values, check_syntax};
use name_tables::{FileNames, ScopedNames};
use plain_data::{Path, Text};
use pool_faults::DescriptorErrorKind;
use pool_types::{Definition, DefinitionKind};
use proto_types::{
    DescriptorProto, EnumDescriptorProto, EnumValueDescriptorProto, FieldDescriptorProto,
    FileDescriptorProto, MethodDescriptorProto, OneofDescriptorProto, ServiceDescriptorProto, tag,
};
use record_walk::{Faults, Visitor};
use std::alloc::{AllocError, Global};

/// The first pass: it enters the names of declarations into the tables of a pool whose files are
/// those of a batch as well, and gathers the faults of names, and of what a file, a message or an
/// enum shows by itself.
///
/// What it shows once a list has been shown to it is the fold of one step over the list. What a
/// roll-back would give stays, after a refusal too. A name comes into a scope that those before it
/// opened, so it is to be shown a file before what that declares, in the order of the walk.
#[derive(Drop)]
pub struct NameVisitor<'a, 'f> {
    pub alloc: Global,
    /// The index of the first file of the batch.
    pub first: u32,
    pub names: &'a mut ScopedNames,
    pub file_names: &'a mut FileNames,
    pub faults: &'a mut Faults<'f>,
}

/// A name as it comes in: the level of the open scope in which it stands, from 0, the name there,
/// and the full name.
#[derive(Clone, Copy)]
struct NameInScope<'a> {
    level: usize,
    name: &'a str,
    full_name: &'a str,
}

impl<'a> NameInScope<'a> {
    /// The name of what stands at a path, in the scope of what is around it.
    fn inside(path: &[i32], name: &'a str, full_name: &'a str) -> NameInScope<'a>
        ensures level { result.level ≡ length path.now / 2 - 1 }
        ensures name { result.name.now ≡ name.now }
        ensures full_name { result.full_name.now ≡ full_name.now }
    {
        NameInScope {
            level: (path.len() / 2).saturating_sub(1),
            name,
            full_name,
        }
    }

    /// The name of an enum's value at a path, in the scope around the enum.
    fn beside(path: &[i32], name: &'a str, full_name: &'a str) -> NameInScope<'a>
        ensures level { result.level ≡ length path.now / 2 - 2 }
        ensures name { result.name.now ≡ name.now }
        ensures full_name { result.full_name.now ≡ full_name.now }
    {
        NameInScope {
            level: (path.len() / 2).saturating_sub(2),
            name,
            full_name,
        }
    }
}

impl NameVisitor<'_, '_> {
    ghost use Rattle.name_pass.specs.Steps.{entered, file_named};
    ghost use Rattle.name_pass.specs.State.{first_new, opened, records_of, scopes_of, StandsIn};
    ghost use Rattle.name_pass.specs.State.{state_of, Stays};

    /// Enters the name of what stands at a path in a new file; where it clashes with a holder, that
    /// is a fault.
    #[inline(always)]
    fn enter(
        &mut self,
        name: NameInScope,
        file: u32,
        path: &[i32],
        kind: DefinitionKind,
    ) -> Result<(), AllocError>
        requires later { first_new self.old ≤ file }
        requires stands { StandsIn (scopes_of self.old) name }
        ensures ok { OnOk result (state_of self.new
            ≡ entered (records_of self.old) (state_of self.old)
            ((name.entry.full_name.now, definition_at file path.now kind) ∷ [])) }
        ensures scopes { OnOk result (scopes_of self.new ≡ opened (scopes_of self.old) name.entry) }
        ensures stays { Stays self.old self.new }
    {
        self.names.open(name.level, name.name)?;
        let Some(holder) = self.names.holder() else {
            let definition = definition_at(self.alloc, file, path, kind)?;
            return self.names.define(definition);
        };
        if kind.is_package() && holder.kind.is_package() {
            return Ok(());
        }
        let definition = definition_at(self.alloc, file, path, kind)?;
        check_clash(self.faults, name.full_name, holder, &definition)
    }

    /// Enters a package and those around it, from the outermost in, and leaves its scope alone
    /// open.
    fn enter_packages(&mut self, file: u32, name: &str) -> Result<(), AllocError>
        requires { first_new self.old ≤ file }
        ensures ok { OnOk result (state_of self.new ≡ entered (records_of self.old)
            (state_of self.old) (map (package_entry file) (packages name.now))) }
        ensures scopes { OnOk result (scopes_of self.new ≡ name.now ∷ []) }
        ensures stays { Stays self.old self.new }
    {
        self.names.open_outermost()?;
        if name.is_empty() {
            return Ok(());
        }
        let package = self.enter_around(file, name)?;
        self.enter_package(file, package)?;
        self.names.keep_innermost();
        Ok(())
    }

    /// Enters the packages around one, from the outermost in, and answers how its own name comes in
    /// then.
    fn enter_around<'a>(&mut self, file: u32, name: &'a str) -> Result<NameInScope<'a>, AllocError>
        requires later { first_new self.old ≤ file }
        requires outermost { scopes_of self.old ≡ [] ∷ [] }
        ensures ok { OnOk result (state_of self.new ≡ entered (records_of self.old)
            (state_of self.old) (map (package_entry file) (fronts name.now))) }
        ensures name { IfOk result (λ n. n.full_name.now ≡ name.now) }
        ensures stands { IfOk result (StandsIn (scopes_of self.new)) }
        ensures stays { Stays self.old self.new }
    {
        let bytes = name.as_bytes();
        let mut level = 0;
        let mut start = 0;
        for (end, byte) in bytes.iter().enumerate() {
            if *byte == b'.' {
                let package = NameInScope {
                    level,
                    name: &name[start..end],
                    full_name: &name[..end],
                };
                self.enter_package(file, package)?;
                // An empty front opens the outermost scope again.
                if end > 0 {
                    level += 1;
                    start = end + 1;
                }
            }
        }
        Ok(NameInScope {
            level,
            name: &name[start..],
            full_name: name,
        })
    }

    fn enter_package(&mut self, file: u32, name: NameInScope) -> Result<(), AllocError>
        requires later { first_new self.old ≤ file }
        requires stands { StandsIn (scopes_of self.old) name }
        ensures ok { OnOk result (state_of self.new ≡ entered (records_of self.old)
            (state_of self.old) (package_entry file name.entry.full_name.now ∷ [])) }
        ensures scopes { OnOk result (scopes_of self.new ≡ opened (scopes_of self.old) name.entry) }
        ensures stays { Stays self.old self.new }
    {
        self.enter(name, file, &[], DefinitionKind::Package)
    }

    /// Enters the name of a new file; where a file has it, that is a fault.
    fn name_file(&mut self, name: &str, file: u32) -> Result<(), AllocError>
        requires { first_new self.old ≤ file }
        ensures ok { OnOk result (state_of self.new
            ≡ file_named (state_of self.old) name.now file) }
        ensures stays { Stays self.old self.new }
    {
        if self.file_names.get(name).is_none() {
            return self.file_names.insert(name, file);
        }
        let name = Text::from_str(self.alloc, name)?;
        self.faults
            .push(DescriptorErrorKind::DuplicateFileName { name })
    }
}

impl Visitor for NameVisitor<'_, '_> {
    ghost use Rattle.std.specs.List.{fold};
    ghost use Rattle.name_pass.specs.Steps.{name_progress, name_step};
    ghost use Rattle.name_pass.specs.State.{borrows_of, front-ready, IsReady, kept_of, records_of};
    ghost use Rattle.name_pass.specs.State.{state_of};

    ghost after = { λ v ds. name_progress (fold (name_step (records_of v)) (state_of v) ds) };

    ghost ready = { IsReady };

    ghost kept = { kept_of };

    ghost borrows = { borrows_of };

    ghost front_ready = { front-ready };

    fn visit_file(
        &mut self,
        _path: &[i32],
        index: u32,
        file: &FileDescriptorProto,
    ) -> Result<(), AllocError> {
        check_syntax(self.faults, index, file)?;
        self.name_file(file.name(), index)?;
        self.enter_packages(index, file.package())
    }

    fn visit_message(
        &mut self,
        path: &[i32],
        full_name: &str,
        file: u32,
        _parent: Option<u32>,
        index: u32,
        message: &DescriptorProto,
    ) -> Result<(), AllocError> {
        let name = NameInScope::inside(path, message.name(), full_name);
        self.enter(name, file, path, DefinitionKind::Message(index))?;
        check_camel_case_names(self.faults, file, path, message)
    }

    fn visit_field(
        &mut self,
        path: &[i32],
        full_name: &str,
        file: u32,
        parent: u32,
        _index: u32,
        field: &FieldDescriptorProto,
    ) -> Result<(), AllocError> {
        let name = NameInScope::inside(path, field.name(), full_name);
        self.enter(name, file, path, DefinitionKind::Field(parent))
    }

    fn visit_oneof(
        &mut self,
        path: &[i32],
        full_name: &str,
        file: u32,
        parent: u32,
        _index: u32,
        oneof: &OneofDescriptorProto,
    ) -> Result<(), AllocError> {
        let name = NameInScope::inside(path, oneof.name(), full_name);
        self.enter(name, file, path, DefinitionKind::Oneof(parent))
    }

    fn visit_service(
        &mut self,
        path: &[i32],
        full_name: &str,
        file: u32,
        index: u32,
        service: &ServiceDescriptorProto,
    ) -> Result<(), AllocError> {
        let name = NameInScope::inside(path, service.name(), full_name);
        self.enter(name, file, path, DefinitionKind::Service(index))
    }

    fn visit_method(
        &mut self,
        path: &[i32],
        full_name: &str,
        file: u32,
        parent: u32,
        _index: u32,
        method: &MethodDescriptorProto,
    ) -> Result<(), AllocError> {
        let name = NameInScope::inside(path, method.name(), full_name);
        self.enter(name, file, path, DefinitionKind::Method(parent))
    }

    fn visit_enum(
        &mut self,
        path: &[i32],
        full_name: &str,
        file: u32,
        _parent: Option<u32>,
        index: u32,
        enumeration: &EnumDescriptorProto,
    ) -> Result<(), AllocError> {
        let name = NameInScope::inside(path, enumeration.name(), full_name);
        self.enter(name, file, path, DefinitionKind::Enum(index))?;
        check_enum_values(self.faults, file, path, enumeration)
    }

    fn visit_enum_value(
        &mut self,
        path: &[i32],
        full_name: &str,
        file: u32,
        parent: u32,
        _index: u32,
        value: &EnumValueDescriptorProto,
    ) -> Result<(), AllocError> {
        let name = NameInScope::beside(path, value.name(), full_name);
        self.enter(name, file, path, DefinitionKind::EnumValue(parent))
    }

    fn visit_extension(
        &mut self,
        path: &[i32],
        full_name: &str,
        file: u32,
        _parent: Option<u32>,
        index: u32,
        extension: &FieldDescriptorProto,
    ) -> Result<(), AllocError> {
        let name = NameInScope::inside(path, extension.name(), full_name);
        self.enter(name, file, path, DefinitionKind::Extension(index))
    }
}

/// What the name means that a record at a path in a file declares.
// Inlined, so that it is made where it stays.
#[inline(always)]
fn definition_at(
    alloc: Global,
    file: u32,
    path: &[i32],
    kind: DefinitionKind,
) -> Result<Definition, AllocError>
    ensures { IfOk result (λ definition. definition ≡ definition_at file path.now kind) }
{
    let path = Path::part(alloc, path, naming_field(kind))?;
    Ok(Definition { file, path, kind })
}

/// The number of the field of a record that names what it declares.
fn naming_field(kind: DefinitionKind) -> i32
    ensures { result ≡ naming_field kind }
{
    if kind.is_package() {
        tag::file::PACKAGE
    } else {
        tag::message::NAME
    }
}

/// Appends to `faults` that of a name that has a holder; a package may be entered again as a
/// package.
// Not inlined, since few names clash.
#[inline(never)]
fn check_clash(
    faults: &mut Faults,
    name: &str,
    holder: &Definition,
    new: &Definition,
) -> Result<(), AllocError>
    ensures told { OnOk result (Tells faults.old faults.new
        (holder_faults (named_files faults.old) (Some holder.now) (name.now, new.now))) }
    ensures labels { faults.new.labels ≡ faults.old.labels }
{
    if holder.kind.is_package() && new.kind.is_package() {
        return Ok(());
    }
    let fault = DescriptorErrorKind::DuplicateName {
        name: Text::from_str(faults.alloc, name)?,
        first: faults.label(holder.file, holder.path.as_slice())?,
        second: faults.label(new.file, new.path.as_slice())?,
    };
    faults.push(fault)
}
