ghost use Rattle.std.specs.Prelude.{◌≡◌, ◌&&◌};
ghost use Rattle.std.specs.BTreeSet.{contains_by};
ghost use Rattle.std.specs.Ordering.{nat_cmp};
ghost use Rattle.name_resolution.specs.Filter.{is_match};
ghost use Rattle.name_resolution.specs.Resolution.{judged, resolution_in};

use crate::filter::ResolveNameFilter;
use crate::resolution::ResolveNameResult;
use plain_data::Text;
use pool_types::Definition;
use std::collections::BTreeSet;

/// Which definitions a reference wants: those of some kinds, in the files with the indexes in
/// `visible`.
#[derive(Clone, Copy)]
pub(crate) struct Wanted<'a> {
    pub visible: &'a BTreeSet<u32>,
    pub filter: ResolveNameFilter,
}

impl Wanted<'_> {
    /// Whether it wants a definition.
    #[inline(always)]
    pub(crate) fn is_wanted(self, def: &Definition) -> bool
        ensures { result ≡ (contains_by (nat_cmp def.now.file) self.entry.visible.now
            && is_match self.entry.filter def.now.kind) }
    {
        self.visible.contains(&def.file) && self.filter.is_match(&def.kind)
    }

    /// What a full name means that has a definition.
    pub(crate) fn judge<'d>(self, name: Text, def: &'d Definition) -> ResolveNameResult<'d>
        ensures { resolution_in result
            ≡ judged (λ n. contains_by (nat_cmp n) self.entry.visible.now) self.entry.filter
            name def.now }
    {
        if !self.visible.contains(&def.file) {
            ResolveNameResult::NotImported {
                name,
                file: def.file,
            }
        } else if !self.filter.is_match(&def.kind) {
            ResolveNameResult::InvalidType {
                name,
                def,
                filter: self.filter,
            }
        } else {
            ResolveNameResult::Found { name, def }
        }
    }
}
