ghost use Rattle.std.specs.Prelude.{◌≡◌, OnOk};
ghost use Rattle.record_walk.specs.Cursor.{IsSound, left};
ghost use Rattle.record_walk.specs.Parts.{GoesOn, KeepsFront, StandsAt, row_parts};
ghost use Rattle.record_walk.specs.Visitor.{HasSeen, Remains};

use super::cursor::Cursor;
use super::located::Located;
use super::row::Row;
use super::site::Site;
use crate::visitor::Visitor;
use std::alloc::AllocError;

/// Shows a visitor the lists of fields, oneofs, methods and values that come next, unless it skips
/// them. Nothing stands in them, and no count counts them.
pub(crate) fn walk_parts<V: Visitor>(
    cursor: &mut Cursor,
    skips_parts: bool,
    visitor: &mut V,
) -> Result<(), AllocError>
    requires sound { IsSound cursor.old }
    requires ready { V.ready visitor.old (left cursor.old) }
    ensures ok { OnOk result (Remains (V.after visitor.old) (V.ready visitor.old)
        (V.after visitor.new) (V.ready visitor.new) (left cursor.old) (left cursor.new)) }
    ensures cursor { OnOk result (GoesOn cursor.old cursor.new) }
    ensures kept { V.kept visitor.new ≡ V.kept visitor.old }
    ensures borrows { V.borrows visitor.new ≡ V.borrows visitor.old }
{
    if skips_parts {
        return Ok(());
    }
    while let Some(row) = cursor.rows.pop_parts() {
        walk_row(&mut cursor.site, row, visitor)?;
    }
    Ok(())
}

/// Shows a visitor what is left of a list of parts.
fn walk_row<V: Visitor>(site: &mut Site, row: Row, visitor: &mut V) -> Result<(), AllocError>
    requires stands { StandsAt site.old row }
    requires ready { V.ready visitor.old (row_parts site.old row) }
    ensures ok { OnOk result (HasSeen (V.after visitor.old) (V.ready visitor.old)
        (V.after visitor.new) (V.ready visitor.new) (row_parts site.old row.entry)) }
    ensures site { OnOk result (KeepsFront row.entry.at.depth site.old site.new) }
    ensures kept { V.kept visitor.new ≡ V.kept visitor.old }
    ensures borrows { V.borrows visitor.new ≡ V.borrows visitor.old }
{
    site.cut(row.at.depth);
    site.enter(row.at, "")?;
    let start = site.name.len();
    let mut records = row.records;
    let mut position = row.at.position;
    while let Some((part, rest)) = records.split_first() {
        site.go_on(start, position, part.name())?;
        let index = position as u32;
        Located { index, part }.show(site, visitor)?;
        records = rest;
        position += 1;
    }
    Ok(())
}
