//! The words that begin statements, and where these stand.

ghost use Rattle.std.specs.Prelude.{◌≡◌, map, reverse, OnOk, OnErr};
ghost use Rattle.link_script.specs.Script.Keyword as spec;

use super::cuts::is_same;
use super::statement::{Block, Keyword};
use std::alloc::AllocError;

// Each keyword as it is written, by its first letter.

const ON_A: [(&str, Keyword); 2] = [("at", Keyword::At), ("alias", Keyword::Alias)];

const ON_D: [(&str, Keyword); 1] = [("default", Keyword::Default)];

const ON_E: [(&str, Keyword); 5] = [
    ("enum", Keyword::Enum),
    ("extend", Keyword::Extend),
    ("extensions", Keyword::Extensions),
    ("end", Keyword::End),
    ("ext", Keyword::Ext),
];

const ON_F: [(&str, Keyword); 3] = [
    ("file", Keyword::File),
    ("field", Keyword::Field),
    ("find", Keyword::Find),
];

const ON_I: [(&str, Keyword); 1] = [("import", Keyword::Import)];

const ON_J: [(&str, Keyword); 1] = [("json", Keyword::Json)];

const ON_L: [(&str, Keyword); 1] = [("link", Keyword::Link)];

const ON_M: [(&str, Keyword); 2] = [("message", Keyword::Message), ("method", Keyword::Method)];

const ON_O: [(&str, Keyword); 1] = [("oneof", Keyword::Oneof)];

const ON_P: [(&str, Keyword); 3] = [
    ("package", Keyword::Package),
    ("public", Keyword::Public),
    ("packed", Keyword::Packed),
];

const ON_R: [(&str, Keyword); 3] = [
    ("reserved", Keyword::Reserved),
    ("refs", Keyword::Refs),
    ("relink", Keyword::Relink),
];

const ON_S: [(&str, Keyword); 2] = [("syntax", Keyword::Syntax), ("service", Keyword::Service)];

const ON_V: [(&str, Keyword); 1] = [("value", Keyword::Value)];

const ON_W: [(&str, Keyword); 2] = [("weak", Keyword::Weak), ("walk", Keyword::Walk)];

/// The keyword that a word spells in a table.
fn spelled(table: &[(&str, Keyword)], word: &str) -> Option<Keyword>
    ensures { result ≡ spec.spelled (map (λ s. (s.0.now, s.1)) table.now) word.now }
{
    for (spelling, keyword) in table {
        if is_same(spelling, word) {
            return Some(*keyword);
        }
    }
    None
}

/// The keyword that a word spells.
pub(super) fn keyword_of(word: &str) -> Option<Keyword>
    ensures { result ≡ spec.keyword_of word.now }
{
    match word.as_bytes().first()? {
        b'a' => spelled(&ON_A, word),
        b'd' => spelled(&ON_D, word),
        b'e' => spelled(&ON_E, word),
        b'f' => spelled(&ON_F, word),
        b'i' => spelled(&ON_I, word),
        b'j' => spelled(&ON_J, word),
        b'l' => spelled(&ON_L, word),
        b'm' => spelled(&ON_M, word),
        b'o' => spelled(&ON_O, word),
        b'p' => spelled(&ON_P, word),
        b'r' => spelled(&ON_R, word),
        b's' => spelled(&ON_S, word),
        b'v' => spelled(&ON_V, word),
        b'w' => spelled(&ON_W, word),
        _ => None,
    }
}

/// Whether a statement may stand in the open blocks, the innermost of which comes last.
pub(super) fn stands(blocks: &[Block], keyword: Keyword) -> bool
    ensures { result ≡ spec.stands (reverse blocks.now) keyword }
{
    match blocks.last() {
        None => matches!(
            keyword,
            Keyword::File
                | Keyword::Link
                | Keyword::Find
                | Keyword::Walk
                | Keyword::Refs
                | Keyword::Ext
                | Keyword::Relink
        ),
        Some(Block::File) => stands_in_file(keyword),
        Some(Block::Message) => stands_in_message(keyword),
        Some(Block::Enum) => matches!(
            keyword,
            Keyword::Value | Keyword::Reserved | Keyword::Alias | Keyword::End
        ),
        Some(Block::Service) => matches!(keyword, Keyword::Method | Keyword::End),
    }
}

fn stands_in_file(keyword: Keyword) -> bool
    ensures { result ≡ spec.in_files keyword }
{
    matches!(
        keyword,
        Keyword::Package
            | Keyword::Syntax
            | Keyword::Import
            | Keyword::Public
            | Keyword::Weak
            | Keyword::At
            | Keyword::Service
            | Keyword::Message
            | Keyword::Enum
            | Keyword::Extend
            | Keyword::End
    )
}

fn stands_in_message(keyword: Keyword) -> bool
    ensures { result ≡ spec.in_messages keyword }
{
    matches!(
        keyword,
        Keyword::Message
            | Keyword::Enum
            | Keyword::Extend
            | Keyword::Field
            | Keyword::Oneof
            | Keyword::Reserved
            | Keyword::Extensions
            | Keyword::End
    )
}

/// Whether a statement says more of the field or the extension before it.
pub(super) fn says_more(keyword: Keyword) -> bool
    ensures { result ≡ spec.says_more keyword }
{
    matches!(keyword, Keyword::Json | Keyword::Packed | Keyword::Default)
}

/// Whether more may be said after a statement.
pub(super) fn may_be_amended(keyword: Keyword) -> bool
    ensures { result ≡ spec.may_be_amended keyword }
{
    matches!(keyword, Keyword::Field | Keyword::Extend) || says_more(keyword)
}

/// Opens or closes the block that a statement opens or closes.
pub(super) fn open_or_close(blocks: &mut Vec<Block>, keyword: Keyword) -> Result<(), AllocError>
    ensures ok { OnOk result (reverse blocks.new.items
        ≡ spec.blocks_after (reverse blocks.old.items) keyword) }
    ensures err { OnErr result (blocks.new.items ≡ blocks.old.items) }
{
    match keyword {
        Keyword::File => blocks.push(Block::File)?,
        Keyword::Message => blocks.push(Block::Message)?,
        Keyword::Enum => blocks.push(Block::Enum)?,
        Keyword::Service => blocks.push(Block::Service)?,
        Keyword::End => {
            blocks.pop();
        }
        _ => {}
    }
    Ok(())
}
