ghost use Rattle.std.specs.Prelude.{◌≡◌, ℕ, List, IfSome, None, if◌then◌else◌};
ghost use Rattle.std.specs.BTreeSet.{contains_by};
ghost use Rattle.std.specs.FinMap as finite;
ghost use Rattle.std.specs.Option.{option_copied};
ghost use Rattle.std.specs.Ordering.{nat_cmp};
ghost use Rattle.proto_types.specs.Names.{join};
ghost use Rattle.name_resolution.specs.Resolution.{definition_found, has_leading_dot, resolution};

use crate::filter::ResolveNameFilter;
use crate::wants::Wanted;
use name_tables::{PartNames, Scope};
use pool_types::Definition;
use std::collections::BTreeSet;
use std::marker::Model;

/// A table of names, in which files look names up. Most names that a file writes stand in its own
/// package: they are looked for from there. Contracts see it as what the names of the table mean.
///
/// It takes no memory.
#[derive(Drop)]
pub struct PackageNames<'a> {
    names: &'a PartNames,
    /// The scope of a package, or the empty one.
    home: Scope<'a, 'a>,
}

impl<'a> Model for PackageNames<'a> {
    ghost use Rattle.std.specs.Prelude.{◌≡◌};
    ghost use Rattle.std.specs.Coded.{coded_list, coded_ℕ};
    ghost use Rattle.std.specs.FinMap as map;
    ghost use Rattle.pool_types.specs.Contents.{ByText};
    ghost use Rattle.pool_types.specs.contracts.contents.definition.Definition as definition;
    ghost use Rattle.pool_types.specs.declared.contents.definition.Definition.{Definition};

    ghost Value = { ByText Definition };

    ghost coded = { map.code (coded_list coded_ℕ) definition.the_row.coded };

    ghost view = { λ names. names.names.now };

    ghost invariant = { λ names. names.home.0 ≡ names.names.now };
}

impl<'a> PackageNames<'a> {
    /// The names of a table, looked for from the empty scope.
    pub fn new(names: &'a PartNames) -> PackageNames<'a>
        ensures { result ≡ names.now }
    {
        PackageNames {
            names,
            home: names.scope(""),
        }
    }

    /// The table.
    pub fn table(&self) -> &'a PartNames
        ensures { result.now ≡ self.now }
    {
        self.names
    }

    /// Looks for names from a package on.
    pub fn enter(&mut self, home: &'a str)
        ensures { self.new ≡ self.old }
    {
        self.home = self.names.scope(home);
    }

    /// The definition that a name with a leading dot means, where `resolve_in_parts` finds it,
    /// whatever the scope. Any other name has none here. No memory is taken.
    #[inline(always)]
    pub fn find(
        &self,
        visible: &BTreeSet<u32>,
        name: &str,
        filter: ResolveNameFilter,
    ) -> Option<&'a Definition>
        ensures { (scope : List ℕ) → option_copied result
            ≡ (if has_leading_dot name.now then definition_found (resolution self.now
            (λ n. contains_by (nat_cmp n) visible.now) filter scope name.now) else None) }
    {
        let full_name = name.strip_prefix('.')?;
        let def = self.definition(full_name)?;
        let wanted = Wanted { visible, filter };
        wanted.is_wanted(def).then_some(def)
    }

    /// What a full name means, or none where the table lacks it.
    #[inline(always)]
    fn definition(&self, full_name: &str) -> Option<&'a Definition>
        ensures { option_copied result ≡ finite.get self.now full_name.now }
    {
        match name_inside(self.home.text(), full_name) {
            Some(name) => self.home.find(name),
            None => self.names.scope("").find(full_name),
        }
    }
}

/// The name inside a scope that a full name has, where it stands there.
#[inline(always)]
fn name_inside<'n>(scope: &str, full_name: &'n str) -> Option<&'n str>
    ensures { IfSome result (λ name. full_name.now ≡ join scope.now name.now) }
{
    if scope.is_empty() {
        return Some(full_name);
    }
    full_name.strip_prefix(scope)?.strip_prefix('.')
}
