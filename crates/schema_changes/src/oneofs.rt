//! What changes where old fields are in one new oneof.

ghost use Rattle.std.specs.Prelude.{◌≡◌, ◌++◌, OnOk};
ghost use Rattle.message_values.specs.Fields.{in_one};
ghost use Rattle.schema_changes.specs.Changes.{compared, old_member, first_some, joined_changes};
ghost use Rattle.schema_changes.specs.Changes.{oneof_changes};

use crate::compared::push_unless;
use crate::{Compared, Entry, WireChange, WireChangeKind};
use pool_types::OneofDescriptorInner;
use std::alloc::AllocError;

/// Whether two fields are in one oneof of their message.
pub(crate) fn in_one(first: Option<u32>, second: Option<u32>) -> bool
    ensures { result ≡ in_one first second }
{
    match (first, second) {
        (Some(first), Some(second)) => first == second,
        _ => false,
    }
}

/// Appends that two old entries are in one oneof now, where they were not.
fn tell_joined(
    changes: &mut Vec<WireChange>,
    first: &Entry,
    member: Option<Entry>,
) -> Result<(), AllocError>
    ensures { OnOk result (changes.new.items ≡ changes.old.items
        ++ joined_changes first.now member) }
{
    let Some(member) = member else {
        return Ok(());
    };
    let passes = first.number == member.number || in_one(first.oneof, member.oneof);
    push_unless(changes, passes, member.number, WireChangeKind::Oneof)
}

impl Compared<'_> {
    /// The old entry with the number of the new field at a position.
    fn old_member(&self, position: u32) -> Option<Entry>
        ensures { result ≡ old_member (compared self.now) position }
    {
        let field = self.after.fields.as_slice().get(position as usize)?;
        self.old_entry(field.number)
    }

    /// The first of the old entries with the numbers of the new fields at positions.
    fn first_member(&self, positions: &[u32]) -> Option<Entry>
        ensures { result ≡ first_some (old_member (compared self.now)) positions.now }
    {
        for position in positions {
            let member = self.old_member(*position);
            if member.is_some() {
                return member;
            }
        }
        None
    }

    /// Appends which old entries are in one new oneof now, and were not.
    pub(crate) fn tell_oneof(
        &self,
        changes: &mut Vec<WireChange>,
        oneof: &OneofDescriptorInner,
    ) -> Result<(), AllocError>
        ensures { OnOk result (changes.new.items ≡ changes.old.items
            ++ oneof_changes (compared self.now) oneof.now) }
    {
        let positions = oneof.fields.as_slice();
        let Some(first) = self.first_member(positions) else {
            return Ok(());
        };
        for position in positions {
            tell_joined(changes, &first, self.old_member(*position))?;
        }
        Ok(())
    }
}
