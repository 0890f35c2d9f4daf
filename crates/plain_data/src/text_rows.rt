ghost use Rattle.plain_data.specs.Maps.{inserted, IsWithin};
ghost use Rattle.std.specs.Prelude.{◌≡◌, ◌∷◌, [], ◌++◌, ◌+◌, ◌<◌, ◌≤◌, length, take, IsTrue, ◌↔◌};
ghost use Rattle.std.specs.Prelude.{MatchOption, IfOk, OnOk, OnErr};
ghost use Rattle.std.specs.FinMap as map;
ghost use Rattle.std.specs.List.Sorted.{IsPermutation};
ghost use Rattle.std.specs.Map.{lookup};
ghost use Rattle.std.specs.Str.{bytes_eq};
ghost use Rattle.plain_data.specs.Digests.{digest_of};
ghost use Rattle.plain_data.specs.TextRows.{IsDigested, AreDigested};
ghost use Rattle.plain_data.specs.TextRows.{text_order, made_of, text_of, entries_of};
ghost use Rattle.plain_data.specs.TextRows.{IsRow, IsSound, AreWithin, bound, IsRun, AreRuns};
ghost use Rattle.plain_data.specs.TextRows.{Holds, Lacks, LacksFrom, Covers};

use crate::digests::digest;
use crate::text_map::TextMap;
use std::alloc::{AllocError, Global};
use std::cmp::Ordering;
use std::marker::Model;
use std::ops::Range;

/// A map from many texts to numbers. All texts stand in one list of bytes. Contracts see it as the
/// finite map.
///
/// Only a call that answers a `Result` takes memory.
#[derive(Drop)]
pub(crate) struct TextRows {
    /// The texts, one behind another, in the order in which they came.
    bytes: Vec<u8>,
    rows: Vec<Row>,
    /// Where each run of rows in the order of their digests ends; the rows behind the last one are
    /// in no order. There are none where there are few rows.
    runs: Vec<usize>,
}

/// An entry: where its text begins and ends in the bytes, and its number.
#[derive(Clone, Copy, PartialEq)]
struct Row {
    start: u32,
    end: u32,
    number: u32,
    /// The digest of its text, where the row stands in a run.
    hash: u32,
}

impl Model for TextRows {
    ghost use Rattle.std.specs.Prelude.{ℕ};
    ghost use Rattle.std.specs.Coded.{coded_list, coded_ℕ};
    ghost use Rattle.std.specs.FinMap as map;
    ghost use Rattle.plain_data.specs.Maps.{ByText};
    ghost use Rattle.plain_data.specs.TextRows.{entries_of, IsSound};

    ghost Value = { ByText ℕ };

    ghost coded = { map.code (coded_list coded_ℕ) coded_ℕ };

    ghost view = { λ m. map.from_entries (entries_of m.bytes.items m.rows.items) };

    ghost invariant = { λ m. IsSound m.bytes.items m.rows.items m.runs.items };
}

impl TextRows {
    /// The map without entries, which takes no memory.
    pub(crate) fn new(alloc: Global) -> TextRows
        ensures { result ≡ map.empty }
    {
        TextRows {
            bytes: Vec::new(alloc),
            rows: Vec::new(alloc),
            runs: Vec::new(alloc),
        }
    }

    /// How many entries there are.
    pub(crate) fn len(&self) -> usize
        ensures { result ≡ map.len self.now }
    {
        self.rows.len()
    }

    /// The number of the bytes of a text, or none where the text has no entry.
    pub(crate) fn get_bytes(&self, key: &[u8]) -> Option<u32>
        ensures { result ≡ map.get self.now key.now }
    {
        let (bytes, rows) = (self.bytes.as_slice(), self.rows.as_slice());
        number_of(bytes, rows, self.runs.as_slice(), key)
    }

    /// Whether another map has each entry.
    pub(crate) fn is_within(&self, other: &TextMap) -> bool
        ensures { IsTrue result ↔ IsWithin self.now other.now }
    {
        covers(self.bytes.as_slice(), self.rows.as_slice(), other)
    }

    /// Enters a number for a text. It takes the place of the number that the text may have.
    ///
    /// # Errors
    /// `AllocError` where memory was refused, or where the texts would have more than 2 to the 32nd
    /// bytes. The map is then as it was.
    pub(crate) fn insert(&mut self, key: &str, number: u32) -> Result<(), AllocError>
        ensures ok { OnOk result (self.new ≡ map.insert self.old key.now number) }
        ensures err { OnErr result (self.new ≡ self.old) }
    {
        self.insert_bytes(key.as_bytes(), number)
    }

    /// Enters a number for the bytes of a text.
    fn insert_bytes(&mut self, key: &[u8], number: u32) -> Result<(), AllocError>
        ensures ok { OnOk result (self.new ≡ map.insert self.old key.now number) }
        ensures err { OnErr result (self.new ≡ self.old) }
    {
        let (bytes, rows) = (self.bytes.as_slice(), self.rows.as_slice());
        match find(bytes, rows, self.runs.as_slice(), key) {
            Some(at) => {
                self.rows[at].number = number;
                Ok(())
            }
            None => {
                push(&mut self.bytes, &mut self.rows, key, number)?;
                arrange(self.bytes.as_slice(), &mut self.rows, &mut self.runs);
                Ok(())
            }
        }
    }

    /// An equal map.
    ///
    /// # Errors
    /// `AllocError` where memory was refused.
    pub(crate) fn clone(&self, alloc: Global) -> Result<TextRows, AllocError>
        ensures { IfOk result (λ copy. copy ≡ self.now) }
    {
        Ok(TextRows {
            bytes: Vec::from_slice(alloc, self.bytes.as_slice())?,
            rows: Vec::from_slice(alloc, self.rows.as_slice())?,
            runs: Vec::from_slice(alloc, self.runs.as_slice())?,
        })
    }
}

/// Texts with numbers, in the order in which they came, of which a map is made at once. Contracts
/// see it as the list of them.
#[derive(Drop)]
pub(crate) struct RowList {
    bytes: Vec<u8>,
    rows: Vec<Row>,
}

impl Model for RowList {
    ghost use Rattle.std.specs.Prelude.{ℕ, List};
    ghost use Rattle.plain_data.specs.TextRows.{entries_of, AreWithin};

    ghost Value = { List (List ℕ × ℕ) };

    ghost view = { λ m. entries_of m.bytes.items m.rows.items };

    ghost invariant = { λ m. AreWithin m.bytes.items m.rows.items };
}

impl RowList {
    /// No texts, with room for so many entries, whose texts have so many bytes in all.
    ///
    /// # Errors
    /// `AllocError` where memory was refused.
    pub(crate) fn with_capacity(
        alloc: Global,
        entries: usize,
        bytes: usize,
    ) -> Result<RowList, AllocError>
        ensures { IfOk result (λ made. made ≡ []) }
    {
        Ok(RowList {
            bytes: Vec::with_capacity(alloc, bytes)?,
            rows: Vec::with_capacity(alloc, entries)?,
        })
    }

    /// How many entries there are.
    pub(crate) fn len(&self) -> usize
        ensures { result ≡ length self.now }
    {
        self.rows.len()
    }

    /// Puts a text and its number behind the others.
    ///
    /// # Errors
    /// `AllocError` where memory was refused, or where the texts would have more than 2 to the 32nd
    /// bytes. The list is then as it was.
    #[inline]
    pub(crate) fn push(&mut self, key: &str, number: u32) -> Result<(), AllocError>
        ensures ok { OnOk result (self.new ≡ self.old ++ (key.now, number) ∷ []) }
        ensures err { OnErr result (self.new ≡ self.old) }
    {
        push(&mut self.bytes, &mut self.rows, key.as_bytes(), number)
    }

    /// The map of them. Of entries of one text the last stands.
    ///
    /// # Errors
    /// `AllocError` where memory was refused.
    pub(crate) fn into_map(self) -> Result<TextRows, AllocError>
        ensures { IfOk result (λ made. made ≡ inserted self) }
    {
        let alloc = *self.rows.allocator();
        let (bytes, rows) = (self.bytes.as_slice(), self.rows.as_slice());
        let mut sorted = Vec::from_slice(alloc, rows)?;
        digest_behind(bytes, &mut sorted, 0);
        sort_behind(bytes, &mut sorted, 0);
        if !ascends(bytes, sorted.as_slice(), 0) {
            return one_by_one(alloc, bytes, rows);
        }
        let mut runs = Vec::new(alloc);
        runs.push(sorted.len())?;
        Ok(TextRows {
            bytes: self.bytes,
            rows: sorted,
            runs,
        })
    }
}

/// How many entries may be in no order: so few are looked through one after another.
pub(crate) const FEW: usize = 64;

/// The map of rows of which some may have one text: of those the last stands.
fn one_by_one(alloc: Global, bytes: &[u8], rows: &[Row]) -> Result<TextRows, AllocError>
    requires { AreWithin bytes.now rows.now }
    ensures { IfOk result (λ made. made ≡ inserted (entries_of bytes.now rows.now)) }
{
    let mut made = TextRows::new(alloc);
    for at in 0..rows.len() {
        made.insert_bytes(rows[at].text(bytes), rows[at].number)?;
    }
    Ok(made)
}

impl Row {
    /// Its text.
    fn text<'a>(&self, bytes: &'a [u8]) -> &'a [u8]
        requires { IsRow bytes.now self.now }
        ensures { result.now ≡ text_of bytes.now self.now }
    {
        &bytes[self.start as usize..self.end as usize]
    }

    /// Its text, where the row stands in the bytes.
    fn text_in<'a>(&self, bytes: &'a [u8]) -> &'a [u8] {
        bytes
            .get(self.start as usize..self.end as usize)
            .unwrap_or(&[])
    }
}

/// The number of a text, if it has one.
fn number_of(bytes: &[u8], rows: &[Row], runs: &[usize], key: &[u8]) -> Option<u32>
    requires { IsSound bytes.now rows.now runs.now }
    ensures { result ≡ lookup (bytes_eq key.now) (entries_of bytes.now rows.now) }
{
    match find(bytes, rows, runs, key) {
        Some(at) => Some(rows[at].number),
        None => None,
    }
}

/// Whether a map has the text of each row, with its number.
fn covers(bytes: &[u8], rows: &[Row], map: &TextMap) -> bool
    requires { AreWithin bytes.now rows.now }
    ensures { IsTrue result ↔ Covers bytes.now rows.now (length rows.now) map.now }
{
    for at in 0..rows.len() {
        if map.get_bytes(rows[at].text(bytes)) != Some(rows[at].number) {
            return false;
        }
    }
    true
}

/// The row of a text, if it has one.
fn find(bytes: &[u8], rows: &[Row], runs: &[usize], key: &[u8]) -> Option<usize>
    requires within { AreWithin bytes.now rows.now }
    requires sorted { AreRuns bytes.now rows.now runs.now }
    ensures { MatchOption result (Lacks bytes.now rows.now key.now)
        (λ at. Holds bytes.now rows.now key.now at) }
{
    if runs.is_empty() {
        return find_from(bytes, rows, 0, key);
    }
    let hash = digest(key);
    let mut from = 0;
    for to in runs {
        let at = find_in_run(bytes, rows, from..*to, hash, key);
        if at.is_some() {
            return at;
        }
        from = *to;
    }
    find_from(bytes, rows, from, key)
}

/// The row of a text in a run of rows, if there is one.
fn find_in_run(
    bytes: &[u8],
    rows: &[Row],
    run: Range<usize>,
    hash: u32,
    key: &[u8],
) -> Option<usize>
    requires digest { hash ≡ digest_of key.now }
    requires within { AreWithin bytes.now rows.now }
    requires digested { AreDigested bytes.now rows.now run.end }
    requires order { run.start ≤ run.end }
    requires end { run.end ≤ length rows.now }
    requires run { IsRun bytes.now rows.now run.start run.end }
    ensures { MatchOption result (LacksFrom bytes.now rows.now key.now run.start run.end)
        (λ at. Holds bytes.now rows.now key.now at) }
{
    let (mut low, mut high) = (run.start, run.end);
    while low < high {
        let middle = low + (high - low) / 2;
        match order(bytes, &rows[middle], hash, key) {
            Ordering::Less => low = middle + 1,
            Ordering::Equal => return Some(middle),
            Ordering::Greater => high = middle,
        }
    }
    None
}

/// How the text of a row stands to one with a digest.
fn order(bytes: &[u8], row: &Row, hash: u32, key: &[u8]) -> Ordering
    requires row { IsRow bytes.now row.now }
    requires digested { IsDigested bytes.now row.now }
    requires digest { hash ≡ digest_of key.now }
    ensures { result ≡ text_order (text_of bytes.now row.now) key.now }
{
    match row.hash.cmp(&hash) {
        Ordering::Equal => row.text(bytes).cmp(key),
        other => other,
    }
}

/// The first row of a text from a position on, if there is one.
fn find_from(bytes: &[u8], rows: &[Row], from: usize, key: &[u8]) -> Option<usize>
    requires within { AreWithin bytes.now rows.now }
    ensures { MatchOption result (LacksFrom bytes.now rows.now key.now from (length rows.now))
        (λ at. Holds bytes.now rows.now key.now at) }
{
    for at in from..rows.len() {
        if rows[at].text(bytes) == key {
            return Some(at);
        }
    }
    None
}

/// Puts a row with a text of its own behind the others.
#[inline]
fn push(bytes: &mut Vec<u8>, rows: &mut Vec<Row>, key: &[u8], number: u32) -> Result<(), AllocError>
    ensures bytes { OnOk result (bytes.new.items ≡ bytes.old.items ++ key.now) }
    ensures rows { OnOk result (rows.new.items ≡ rows.old.items
        ++ record {
          start = length bytes.old.items;
          end = length bytes.old.items + length key.now;
          number = number;
          hash = 0;
        } ∷ []) }
    ensures bytes_stay { OnErr result (bytes.new.items ≡ bytes.old.items) }
    ensures rows_stay { OnErr result (rows.new.items ≡ rows.old.items) }
{
    let start = bytes.len();
    let end = start.saturating_add(key.len());
    if end > u32::MAX as usize {
        // No number is left for its end, so this asks for more room than can be granted.
        bytes.reserve(usize::MAX)?;
        return Err(AllocError);
    }
    rows.reserve(1)?;
    bytes.extend_from_slice(key)?;
    rows.push_reserved(Row {
        start: start as u32,
        end: end as u32,
        number,
        hash: 0,
    });
    Ok(())
}

/// Puts the rows behind the runs in order, where there are many: they become a run, with the rows
/// of the runs before them that are no longer. Where memory is refused they stay in no order.
fn arrange(bytes: &[u8], rows: &mut Vec<Row>, runs: &mut Vec<usize>)
    requires { IsSound bytes.now rows.old.items runs.old.items }
    ensures sound { IsSound bytes.now rows.new.items runs.new.items }
    ensures same { made_of bytes.now rows.new.items ≡ made_of bytes.now rows.old.items }
{
    let ends = runs.as_slice();
    if rows.len().saturating_sub(start_of(ends, ends.len())) < FEW {
        return;
    }
    let kept = kept_runs(ends, rows.len());
    let from = start_of(ends, kept);
    digest_behind(bytes, rows, from);
    sort_behind(bytes, rows, from);
    runs.truncate(kept);
    add_run(bytes, rows.as_slice(), runs);
}

/// Where the run with an index begins, or the rows behind them.
fn start_of(runs: &[usize], index: usize) -> usize
    requires { index ≤ length runs.now }
    ensures { result ≡ bound runs.now index }
{
    if index == 0 { 0 } else { runs[index - 1] }
}

/// How many of the runs stay as they are: without those at the end that are no longer than what
/// stands behind them.
fn kept_runs(runs: &[usize], end: usize) -> usize
    ensures { result ≤ length runs.now }
{
    let mut kept = runs.len();
    while kept > 0 {
        let (start, middle) = (start_of(runs, kept - 1), runs[kept - 1]);
        if middle.saturating_sub(start) > end.saturating_sub(middle) {
            break;
        }
        kept -= 1;
    }
    kept
}

/// Enters the digests of the rows from a position on.
fn digest_behind(bytes: &[u8], rows: &mut Vec<Row>, from: usize)
    requires within { AreWithin bytes.now rows.old.items }
    requires before { AreDigested bytes.now rows.old.items from }
    ensures within { AreWithin bytes.now rows.new.items }
    ensures digested { AreDigested bytes.now rows.new.items (length rows.new.items) }
    ensures same { entries_of bytes.now rows.new.items ≡ entries_of bytes.now rows.old.items }
    ensures before { take from rows.new.items ≡ take from rows.old.items }
{
    for at in from..rows.len() {
        rows[at].hash = digest(rows[at].text(bytes));
    }
}

/// Puts the rows from a position on in the order of their digests, and those of one digest in the
/// order of their texts.
fn sort_behind(bytes: &[u8], rows: &mut Vec<Row>, from: usize)
    requires { from ≤ length rows.old.items }
    ensures moved { IsPermutation rows.old.items rows.new.items }
    ensures before { take from rows.new.items ≡ take from rows.old.items }
{
    let alloc = *rows.allocator();
    sort_rows(alloc, bytes, &mut rows[from..]);
}

/// Puts rows in the order of their digests, and those of one digest in the order of their texts.
/// Few have one, so texts are looked at where some do. Where memory is refused those may stand in
/// any order.
fn sort_rows(alloc: Global, bytes: &[u8], rows: &mut [Row])
    ensures { IsPermutation rows.old rows.new }
{
    rows.sort_unstable_by_key(|row| row.hash);
    if have_ties(rows) {
        let _ = rows.sort_by(alloc, |a, b| match a.hash.cmp(&b.hash) {
            Ordering::Equal => a.text_in(bytes).cmp(b.text_in(bytes)),
            other => other,
        });
    }
}

/// Whether two rows that stand side by side have one digest.
fn have_ties(rows: &[Row]) -> bool {
    rows.windows(2).any(|pair| pair[0].hash == pair[1].hash)
}

/// Makes a run of the rows behind the runs, where they are in order.
fn add_run(bytes: &[u8], rows: &[Row], runs: &mut Vec<usize>)
    requires sound { IsSound bytes.now rows.now runs.old.items }
    requires digested { AreDigested bytes.now rows.now (length rows.now) }
    ensures { IsSound bytes.now rows.now runs.new.items }
{
    let ends = runs.as_slice();
    let from = start_of(ends, ends.len());
    if ascends(bytes, rows, from) {
        let _ = runs.push(rows.len());
    }
}

/// Whether the rows from a position on rise in that order.
fn ascends(bytes: &[u8], rows: &[Row], from: usize) -> bool
    requires within { AreWithin bytes.now rows.now }
    requires digested { AreDigested bytes.now rows.now (length rows.now) }
    ensures { IsTrue result → IsRun bytes.now rows.now from (length rows.now) }
{
    for at in from.saturating_add(1)..rows.len() {
        match order(bytes, &rows[at - 1], rows[at].hash, rows[at].text(bytes)) {
            Ordering::Less => {}
            _ => return false,
        }
    }
    true
}
