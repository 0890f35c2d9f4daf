ghost use Rattle.std.specs.Prelude.{◌≡◌, IfOk, drop};
ghost use Rattle.std.specs.Str.{IsCharBoundary};
ghost use Rattle.pool_types.specs.Definition.{is_package, is_parent};

use crate::FileDescriptor;
use plain_data::{Path, Text};
use std::alloc::{AllocError, Global};

/// Where a declaration stands, and its name.
#[derive(PartialEq, Debug, Drop)]
pub struct Identity {
    pub file: u32,
    /// Field numbers and positions, from the file to the declaration.
    pub path: Path,
    pub full_name: Text,
    /// The byte of the full name at which the declared name begins, from 0.
    pub name_index: usize,
}

/// What a name means.
#[derive(PartialEq, Debug, Drop)]
pub struct Definition {
    pub file: u32,
    /// The declaration's path, followed by the number of its name.
    pub path: Path,
    pub kind: DefinitionKind,
}

/// What kind of thing it is, with its own index, or for a part the index of its message, service or
/// enum.
#[derive(Clone, Copy, PartialEq, Debug)]
pub enum DefinitionKind {
    Package,
    Message(u32),
    Field(u32),
    Oneof(u32),
    Service(u32),
    Method(u32),
    Enum(u32),
    EnumValue(u32),
    Extension(u32),
}

impl Identity {
    /// The full name, with the scope before the declared name.
    pub fn full_name(&self) -> &str
        ensures { result.now ≡ self.now.full_name }
    {
        self.full_name.as_str()
    }

    /// The declared name, without its scope: the full name from `name_index` on, where a character
    /// begins there, as it does in each item of a pool.
    pub fn name(&self) -> &str
        ensures { IsCharBoundary self.now.full_name self.now.name_index → result.now
            ≡ drop self.now.name_index self.now.full_name }
    {
        self.full_name().get(self.name_index..).unwrap_or("")
    }

    /// The file in which the declaration stands.
    pub fn file(&self) -> FileDescriptor
        ensures { result ≡ record { index = self.now.file } }
    {
        FileDescriptor::new(self.file)
    }

    /// The path of the declaration in the record of its file.
    pub fn path(&self) -> &[i32]
        ensures { result.now ≡ self.now.path }
    {
        self.path.as_slice()
    }

    /// An equal identity.
    ///
    /// # Errors
    /// `AllocError` where memory was refused.
    pub fn clone(&self, alloc: Global) -> Result<Identity, AllocError>
        ensures { IfOk result (λ copy. copy ≡ self.now) }
    {
        Ok(Identity {
            file: self.file,
            path: self.path.clone(alloc)?,
            full_name: self.full_name.clone(alloc)?,
            name_index: self.name_index,
        })
    }
}

impl DefinitionKind {
    /// Whether it is a package.
    pub fn is_package(&self) -> bool
        ensures { result ≡ is_package self.now }
    {
        matches!(self, DefinitionKind::Package)
    }

    /// Whether other declarations may stand in it.
    pub fn is_parent(&self) -> bool
        ensures { result ≡ is_parent self.now }
    {
        matches!(
            self,
            DefinitionKind::Package
                | DefinitionKind::Message(_)
                | DefinitionKind::Service(_)
                | DefinitionKind::Enum(_)
        )
    }
}

impl Definition {
    /// An equal definition.
    ///
    /// # Errors
    /// `AllocError` where memory was refused.
    pub fn clone(&self, alloc: Global) -> Result<Definition, AllocError>
        ensures { IfOk result (λ copy. copy ≡ self.now) }
    {
        Ok(Definition {
            file: self.file,
            path: self.path.clone(alloc)?,
            kind: self.kind,
        })
    }
}
