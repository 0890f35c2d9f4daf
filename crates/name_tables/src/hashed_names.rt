ghost use Rattle.std.specs.Prelude.{◌≡◌, OnOk, OnErr, None};
ghost use Rattle.std.specs.FinMap as map;

use crate::name_table::NameTable;
use pool_types::Definition;
use proto_types::join;
use std::alloc::{AllocError, Global};
use std::collections::HashMap;
use std::marker::Model;

/// A table of names over a hash map, whose seed is fixed. Contracts see it as the finite map.
#[derive(Drop)]
pub struct HashedNames {
    alloc: Global,
    table: HashMap<String, Definition>,
}

impl Model for HashedNames {
    ghost use Rattle.std.specs.Coded.{coded_list, coded_ℕ};
    ghost use Rattle.std.specs.FinMap as map;
    ghost use Rattle.pool_types.specs.Contents.{ByText};
    ghost use Rattle.pool_types.specs.contracts.contents.definition.Definition as definition;
    ghost use Rattle.pool_types.specs.declared.contents.definition.Definition.{Definition};
    ghost use Rattle.plain_data.specs.Maps.{by_text};

    ghost Value = { ByText Definition };

    ghost coded = { map.code (coded_list coded_ℕ) definition.the_row.coded };

    ghost view = { λ names. by_text names.table };
}

impl HashedNames {
    /// The table without names, which takes no memory.
    pub fn new(alloc: Global) -> HashedNames
        ensures { result ≡ map.empty }
    {
        HashedNames {
            alloc,
            table: HashMap::new(alloc),
        }
    }

    /// Adds a name that the table lacks.
    fn add(&mut self, name: &str, definition: Definition) -> Result<(), AllocError>
        requires { map.get self.old name.now ≡ None }
        ensures ok { OnOk result (self.new ≡ map.insert self.old name.now definition) }
        ensures err { OnErr result (self.new ≡ self.old) }
    {
        let key = String::from_str(self.alloc, name)?;
        self.table.insert(key, definition)?;
        Ok(())
    }
}

impl NameTable for HashedNames {
    ghost names = { λ names. names };

    fn get(&self, name: &str) -> Option<&Definition> {
        self.table.get(name)
    }

    fn get_joined(
        &self,
        alloc: Global,
        scope: &str,
        name: &str,
    ) -> Result<Option<&Definition>, AllocError> {
        let full_name = join(alloc, scope, name)?;
        Ok(self.get(full_name.as_str()))
    }

    fn insert(
        &mut self,
        name: &str,
        definition: Definition,
    ) -> Result<Option<Definition>, AllocError> {
        if self.table.contains_key(name) {
            return Ok(Some(definition));
        }
        self.add(name, definition)?;
        Ok(None)
    }

    fn remove_from(&mut self, file: u32) {
        self.table.retain(|_, definition| definition.file < file);
    }

    fn clone(&self) -> Result<HashedNames, AllocError> {
        let mut copy = HashedNames::new(self.alloc);
        for (name, definition) in self.table.iter() {
            copy.add(name.as_str(), definition.clone(self.alloc)?)?;
        }
        Ok(copy)
    }

    fn same(&self, other: &HashedNames) -> bool {
        self.table == other.table
    }
}
