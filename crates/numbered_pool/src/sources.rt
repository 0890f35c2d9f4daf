//! The options of items, and what the source of their file says of them.

ghost use Rattle.std.specs.Prelude.{◌≡◌};
ghost use Rattle.std.specs.Option.{option_copied};
ghost use Rattle.numbered_pool.specs.Sources as spec;

use crate::answers::Answers;
use crate::names::identity;
use crate::numbers::{Item, definition_kind};
use pool_types::FileDescriptor;
use proto_types::Location;
use record_lists::{encoded, location_of, options_of};

impl Answers {
    /// The bytes of the options of the file with an index, or none past the end. A file without
    /// options has no bytes.
    pub fn file_options(&self, index: u32) -> Option<&[u8]>
        ensures { option_copied result ≡ spec.file_options self.now.pool index }
    {
        Some(encoded(&self.pool.file(FileDescriptor::new(index))?.raw.options))
    }

    /// The bytes of the options of an item, or none where the pool has no such item. An item
    /// without options has no bytes.
    pub fn options(&self, item: Item) -> Option<&[u8]>
        ensures { option_copied result ≡ spec.item_options self.now.pool item }
    {
        let id = identity(&self.pool, item)?;
        options_of(self.pool.files(), id, definition_kind(item)?)
    }

    /// The path of an item in the record of its file, or none where the pool has no such item.
    pub fn path(&self, item: Item) -> Option<&[i32]>
        ensures { option_copied result ≡ spec.item_path self.now.pool item }
    {
        Some(identity(&self.pool, item)?.path())
    }

    /// The first location of an item in the source of its file.
    fn location(&self, item: Item) -> Option<&Location>
        ensures { option_copied result ≡ spec.item_location self.now.pool item }
    {
        location_of(self.pool.files(), identity(&self.pool, item)?)
    }

    /// The numbers of the place of an item in the source of its file, as the record of the file has
    /// them; none where the pool has no such item, or its file does not tell the place.
    pub fn span(&self, item: Item) -> Option<&[i32]>
        ensures { option_copied result ≡ spec.item_span self.now.pool item }
    {
        Some(self.location(item)?.span.as_slice())
    }

    /// The comment right before an item, where its file tells one.
    pub fn leading_comments(&self, item: Item) -> Option<&str>
        ensures { option_copied result ≡ spec.leading_comments self.now.pool item }
    {
        Some(self.location(item)?.leading_comments.as_ref()?.as_str())
    }

    /// The comment right behind an item, where its file tells one.
    pub fn trailing_comments(&self, item: Item) -> Option<&str>
        ensures { option_copied result ≡ spec.trailing_comments self.now.pool item }
    {
        Some(self.location(item)?.trailing_comments.as_ref()?.as_str())
    }

    /// The comment at a position among those that stand before an item by themselves, or none past
    /// the end, or where its file tells none.
    pub fn detached_comments(&self, item: Item, position: u32) -> Option<&str>
        ensures { option_copied result ≡ spec.detached_comments self.now.pool item position }
    {
        let comments = &self.location(item)?.leading_detached_comments;
        Some(comments.as_slice().get(position as usize)?.as_str())
    }
}
