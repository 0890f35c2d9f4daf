ghost use Rattle.std.specs.Prelude.{suc, ◌≡◌, ◌<◌, ◌+◌, ◌^◌, true, IfOk, OnOk};
ghost use Rattle.record_walk.specs.Counts.{lists_fit};
ghost use Rattle.record_walk.specs.Cursor.{Advances, Begins, IsSound};
ghost use Rattle.record_walk.specs.Parts.{AdvancesPast};
ghost use Rattle.record_walk.specs.Protos.{of_file};
ghost use Rattle.record_walk.specs.Walking.{Room, within_file};

use super::located::Located;
use super::rows::Rows;
use super::site::Site;
use crate::counts::Counts;
use proto_types::FileDescriptorProto;
use std::alloc::{AllocError, Global};

/// The declarations in a file that are still to come, and the counts before them.
///
/// It has one path and one full name, those of the declaration that came last, and goes through one
/// file after another with them.
#[derive(Drop)]
pub(crate) struct Cursor<'a> {
    pub(crate) counts: Counts,
    pub(crate) site: Site,
    pub(crate) rows: Rows<'a>,
}

impl<'a> Cursor<'a> {
    /// Before any file, with the counts of a pool, which takes no memory.
    pub(crate) fn new(alloc: Global, base: Counts) -> Cursor<'a>
        ensures { result.counts ≡ base }
    {
        Cursor {
            counts: base,
            site: Site::new(alloc),
            rows: Rows::new(alloc),
        }
    }

    /// Goes to all that stands in the next file, which is itself not counted. What was still to
    /// come is left out.
    pub(crate) fn begin(&mut self, file: &'a FileDescriptorProto) -> Result<(), AllocError>
        requires short { lists_fit (of_file file.now) ≡ true }
        requires room { Room self.old.counts
            (within_file self.old.counts.files self.old.counts file.now) }
        ensures { OnOk result (Begins self.old.counts
            (within_file self.old.counts.files self.old.counts file.now) self.new) }
    {
        self.site.begin(self.counts.files, file.package())?;
        self.rows.clear();
        self.rows.push_file(file, self.site.depth())
    }

    /// Counts the file that was gone through.
    pub(crate) fn count_file(&mut self)
        requires { self.old.counts.files + 1 < 2 ^ 32 }
        ensures { self.new.counts
            ≡ record self.old.counts { files = suc self.old.counts.files } }
    {
        self.counts.files += 1;
    }

    /// The next declaration, whose site is the cursor's then.
    pub(crate) fn advance(&mut self) -> Result<Option<Located<'a>>, AllocError>
        requires { IsSound self.old }
        ensures { IfOk result (λ next. Advances self.old self.new next) }
    {
        let Some((part, at)) = self.rows.step() else {
            return Ok(None);
        };
        self.site.cut(at.depth);
        self.site.enter(at, part.name())?;
        let index = part.count(&mut self.counts, at.position);
        self.rows
            .push_inner(part, index, self.site.depth(), at.depth.scope)?;
        Ok(Some(Located { index, part }))
    }

    /// The next declaration; where that is wanted, lists of fields, oneofs, methods and values that
    /// come before it are passed over.
    pub(crate) fn advance_past(&mut self, wanted: bool) -> Result<Option<Located<'a>>, AllocError>
        requires { IsSound self.old }
        ensures { IfOk result (λ next. AdvancesPast wanted self.old self.new next) }
    {
        self.rows.pass_parts(wanted);
        self.advance()
    }
}
