ghost use Rattle.plain_data.specs.Maps.{inserted, HasAll, IsWithin};
ghost use Rattle.std.specs.Prelude.{◌≡◌, ◌∷◌, [], ◌++◌, length, IsTrue, ◌↔◌};
ghost use Rattle.std.specs.Prelude.{MatchOption, IfOk, OnOk, OnErr, ◌⊎◌};
ghost use Rattle.std.specs.FinMap as map;
ghost use Rattle.std.specs.List.{IsDistinct};
ghost use Rattle.std.specs.Map.{keys_of, lookup};
ghost use Rattle.std.specs.Str.{bytes_eq};
ghost use Rattle.plain_data.specs.TextEntries.{AreApart, Holds, Lacks, LacksFrom};

use crate::digests::digest;
use crate::text_rows::{FEW, RowList, TextRows};
use crate::{Duplicate, Text};
use std::alloc::{AllocError, Global};
use std::fmt;
use std::marker::Model;

/// A map from texts to numbers. Contracts see it as the finite map.
///
/// Only a call that answers a `Result` takes memory.
#[derive(Drop)]
pub struct TextMap {
    held: Held,
}

/// Where the entries of a map stand.
#[derive(Drop)]
enum Held {
    /// Few entries, no two of which have one text.
    Few(Vec<(Text, u32)>),
    Many(TextRows),
}

impl Model for TextMap {
    ghost use Rattle.std.specs.Prelude.{ℕ};
    ghost use Rattle.std.specs.Coded.{coded_list, coded_ℕ};
    ghost use Rattle.std.specs.FinMap as map;
    ghost use Rattle.plain_data.specs.Maps.{ByText};
    ghost use Rattle.plain_data.specs.TextMaps.{map_of, AreSound};

    ghost Value = { ByText ℕ };

    ghost coded = { map.code (coded_list coded_ℕ) coded_ℕ };

    ghost view = { λ m. map_of m.held };

    ghost invariant = { λ m. AreSound m.held };
}

impl TextMap {
    /// The map without entries, which takes no memory.
    pub fn new(alloc: Global) -> TextMap
        ensures { result ≡ map.empty }
    {
        TextMap {
            held: Held::Few(Vec::new(alloc)),
        }
    }

    /// How many entries there are.
    pub fn len(&self) -> usize
        ensures { result ≡ map.len self.now }
    {
        match &self.held {
            Held::Few(entries) => entries.len(),
            Held::Many(rows) => rows.len(),
        }
    }

    /// The number of a text, or none where the text has no entry.
    pub fn get(&self, key: &str) -> Option<u32>
        ensures { result ≡ map.get self.now key.now }
    {
        self.get_bytes(key.as_bytes())
    }

    /// The number of the bytes of a text, or none where the text has no entry.
    pub(crate) fn get_bytes(&self, key: &[u8]) -> Option<u32>
        ensures { result ≡ map.get self.now key.now }
    {
        match &self.held {
            Held::Few(entries) => number_of(entries.as_slice(), key),
            Held::Many(rows) => rows.get_bytes(key),
        }
    }

    /// Enters a number for a text. It takes the place of the number that the text may have.
    ///
    /// # Errors
    /// `AllocError` where memory was refused, or where the texts would have more than 2 to the 32nd
    /// bytes. The map is then as it was.
    pub fn insert(&mut self, key: &str, number: u32) -> Result<(), AllocError>
        ensures ok { OnOk result (self.new ≡ map.insert self.old key.now number) }
        ensures err { OnErr result (self.new ≡ self.old) }
    {
        match &mut self.held {
            Held::Few(entries) => match find(entries.as_slice(), key.as_bytes()) {
                Some(at) => {
                    entries[at].1 = number;
                    Ok(())
                }
                None => {
                    if entries.len() < FEW {
                        return push(entries, key, number);
                    }
                    let mut rows = rows_of(*entries.allocator(), entries.as_slice())?;
                    rows.insert(key, number)?;
                    self.held = Held::Many(rows);
                    Ok(())
                }
            },
            Held::Many(rows) => rows.insert(key, number),
        }
    }

    /// An equal map.
    ///
    /// # Errors
    /// `AllocError` where memory was refused.
    pub fn clone(&self, alloc: Global) -> Result<TextMap, AllocError>
        ensures { IfOk result (λ copy. copy ≡ self.now) }
    {
        let held = match &self.held {
            Held::Few(entries) => Held::Few(copied(alloc, entries.as_slice())?),
            Held::Many(rows) => Held::Many(rows.clone(alloc)?),
        };
        Ok(TextMap { held })
    }

    /// Whether another map has each entry.
    fn is_within(&self, other: &TextMap) -> bool
        ensures { IsTrue result ↔ IsWithin self.now other.now }
    {
        match &self.held {
            Held::Few(entries) => has_all(entries.as_slice(), other),
            Held::Many(rows) => rows.is_within(other),
        }
    }
}

/// Texts with numbers, in the order in which they came, of which a map is made at once. Contracts
/// see it as the list of them.
#[derive(Drop)]
pub struct NameList {
    held: Listed,
}

/// Where the entries of a list stand.
#[derive(Drop)]
enum Listed {
    Few(Vec<(Text, u32)>),
    Many(RowList),
}

impl Model for NameList {
    ghost use Rattle.std.specs.Prelude.{ℕ, List};
    ghost use Rattle.plain_data.specs.TextMaps.{listed};

    ghost Value = { List (List ℕ × ℕ) };

    ghost view = { λ m. listed m.held };
}

impl NameList {
    /// No texts, with room for so many entries, whose texts have so many bytes in all.
    ///
    /// # Errors
    /// `AllocError` where memory was refused.
    pub fn with_capacity(
        alloc: Global,
        entries: usize,
        bytes: usize,
    ) -> Result<NameList, AllocError>
        ensures { IfOk result (λ made. made ≡ []) }
    {
        let held = if entries <= FEW {
            Listed::Few(Vec::with_capacity(alloc, entries)?)
        } else {
            Listed::Many(RowList::with_capacity(alloc, entries, bytes)?)
        };
        Ok(NameList { held })
    }

    /// How many entries there are.
    pub fn len(&self) -> usize
        ensures { result ≡ length self.now }
    {
        match &self.held {
            Listed::Few(entries) => entries.len(),
            Listed::Many(rows) => rows.len(),
        }
    }

    /// Puts a text and its number behind the others.
    ///
    /// # Errors
    /// `AllocError` where memory was refused, or where the texts would have more than 2 to the 32nd
    /// bytes. The list is then as it was.
    #[inline]
    pub fn push(&mut self, key: &str, number: u32) -> Result<(), AllocError>
        ensures ok { OnOk result (self.new ≡ self.old ++ (key.now, number) ∷ []) }
        ensures err { OnErr result (self.new ≡ self.old) }
    {
        match &mut self.held {
            Listed::Few(entries) => push(entries, key, number),
            Listed::Many(rows) => rows.push(key, number),
        }
    }

    /// The map of them. Of entries of one text the last stands.
    ///
    /// # Errors
    /// `AllocError` where memory was refused.
    pub fn into_map(self) -> Result<TextMap, AllocError>
        ensures { IfOk result (λ made. made ≡ inserted self) }
    {
        match self.held {
            Listed::Few(entries) => map_of(entries),
            Listed::Many(rows) => Ok(TextMap {
                held: Held::Many(rows.into_map()?),
            }),
        }
    }
}

/// The map of entries of which some may have one text: of those the last stands. Where they are few
/// and no two have one, they stay where they are.
fn map_of(entries: Vec<(Text, u32)>) -> Result<TextMap, AllocError>
    ensures { IfOk result (λ made. made ≡ inserted entries.items) }
{
    if entries.len() > FEW || !are_apart(entries.as_slice()) {
        let rows = rows_of(*entries.allocator(), entries.as_slice())?;
        return Ok(TextMap {
            held: Held::Many(rows),
        });
    }
    Ok(TextMap {
        held: Held::Few(entries),
    })
}

/// The rows of entries that are put in one after another.
fn rows_of(alloc: Global, entries: &[(Text, u32)]) -> Result<TextRows, AllocError>
    ensures { IfOk result (λ made. made ≡ inserted entries.now) }
{
    let mut made = TextRows::new(alloc);
    for entry in entries {
        made.insert(entry.0.as_str(), entry.1)?;
    }
    Ok(made)
}

/// Puts an entry behind the others.
// With room made first, so that the text is made where it stays.
#[inline]
fn push(entries: &mut Vec<(Text, u32)>, key: &str, number: u32) -> Result<(), AllocError>
    ensures ok { OnOk result (entries.new.items ≡ entries.old.items ++ (key.now, number) ∷ []) }
    ensures err { OnErr result (entries.new.items ≡ entries.old.items) }
{
    let alloc = *entries.allocator();
    entries.reserve(1)?;
    entries.push_reserved((Text::from_str(alloc, key)?, number));
    Ok(())
}

/// A copy of the entries.
fn copied(alloc: Global, entries: &[(Text, u32)]) -> Result<Vec<(Text, u32)>, AllocError>
    ensures { IfOk result (λ copies. copies.items ≡ entries.now) }
{
    let mut copies = Vec::with_capacity(alloc, entries.len())?;
    for entry in entries {
        copies.push((entry.0.clone(alloc)?, entry.1))?;
    }
    Ok(copies)
}

/// Whether a map has each of some entries.
fn has_all(entries: &[(Text, u32)], map: &TextMap) -> bool
    ensures { IsTrue result ↔ HasAll entries.now map.now }
{
    entries
        .iter()
        .all(|entry| map.get(entry.0.as_str()) == Some(entry.1))
}

/// The number of a text, if it has one, among entries of which no two have one text.
fn number_of(entries: &[(Text, u32)], key: &[u8]) -> Option<u32>
    requires { IsDistinct bytes_eq (keys_of entries.now) }
    ensures { result ≡ lookup (bytes_eq key.now) entries.now }
{
    match find(entries, key) {
        Some(at) => Some(entries[at].1),
        None => None,
    }
}

/// Where the first entry of a text stands, if it has one.
fn find(entries: &[(Text, u32)], key: &[u8]) -> Option<usize>
    ensures { MatchOption result (Lacks entries.now key.now) (λ at. Holds entries.now key.now at) }
{
    find_from(entries, 0, key)
}

/// Where the first entry of a text from a position on stands, if there is one.
fn find_from(entries: &[(Text, u32)], from: usize, key: &[u8]) -> Option<usize>
    ensures { MatchOption result (LacksFrom entries.now key.now from (length entries.now))
        (λ at. Holds entries.now key.now at) }
{
    for at in from..entries.len() {
        if entries[at].0.as_str().as_bytes() == key {
            return Some(at);
        }
    }
    None
}

/// Whether no two entries have one text.
fn are_apart(entries: &[(Text, u32)]) -> bool
    ensures { IsTrue result → AreApart entries.now (length entries.now) }
{
    if entries.len() <= 3 {
        differ_by_pairs(entries)
    } else {
        differ_by_digests(entries)
    }
}

/// Whether no two entries have one text, as each is compared with each.
fn differ_by_pairs(entries: &[(Text, u32)]) -> bool
    ensures { IsTrue result → AreApart entries.now (length entries.now) }
{
    for at in 0..entries.len() {
        if find_from(entries, at + 1, entries[at].0.as_str().as_bytes()).is_some() {
            return false;
        }
    }
    true
}

/// Whether no two entries have one text, as a text is compared with those before it where one of
/// them has the same high bits of the digest.
fn differ_by_digests(entries: &[(Text, u32)]) -> bool
    ensures { IsTrue result → AreApart entries.now (length entries.now) }
{
    let mut seen = [false; 512];
    for at in 0..entries.len() {
        let text = entries[at].0.as_str().as_bytes();
        let bits = (digest(text) / 0x80_0000 % 512) as usize;
        if seen[bits] && is_among(&entries[..at], text) {
            return false;
        }
        seen[bits] = true;
    }
    true
}

/// Whether one of the entries has a text.
fn is_among(entries: &[(Text, u32)], key: &[u8]) -> bool
    ensures { IsTrue result ⊎ Lacks entries.now key.now }
{
    find(entries, key).is_some()
}

impl Duplicate for TextMap {
    fn duplicate(&self, alloc: Global) -> Result<TextMap, AllocError> {
        self.clone(alloc)
    }
}

impl PartialEq for TextMap {
    ghost use Rattle.std.specs.Cmp.{nat_eq_equiv};
    ghost use Rattle.std.specs.Cmp.Lexicographic.{nat_list_eq_equiv};
    ghost use Rattle.std.specs.Prelude.{nat_eq};
    ghost use Rattle.plain_data.specs.Maps.{map_eq, maps_per};

    ghost eq = { map_eq bytes_eq nat_eq };

    ghost laws = { maps_per nat_list_eq_equiv nat_eq_equiv };

    fn eq(&self, other: &TextMap) -> bool {
        self.is_within(other) && other.is_within(self)
    }
}

/// Only how many entries there are.
impl fmt::Debug for TextMap {
    fn fmt<W: fmt::Write>(&self, f: &mut fmt::Formatter<W>) -> fmt::Result {
        f.debug_struct("TextMap").field("len", &self.len()).finish()
    }
}
