//! The order of the keys of dictionaries.
ghost use Rattle.std.specs.Ordering.{nat_cmp};
ghost use Rattle.std.specs.Cmp.Lexicographic.{slice_cmp};
ghost use Rattle.std.specs.List.{AllAdjacentBelow};
ghost use Rattle.std.specs.List.Sorted.{IsNonDecreasingBy, IsPermutation, IsSorted};
ghost use Rattle.std.specs.List.Sorted.{IsStrictlySortedBy};
ghost use Rattle.std.specs.Prelude.{◌≡◌, ◌↔◌, ◌<◌, ◌≤◌, ◌^◌, IsTrue, ℕ, List, All, map, length};
ghost use Rattle.std.specs.Prelude.{IfOk, OnOk, IfSome};
ghost use Rattle.plist_value.specs.Plist.{text};
ghost use Rattle.plist_value.specs.Texts.{units_of};
ghost use Rattle.plist_object.specs.Objects.{holds_scalar};
ghost use Rattle.plist_object.specs.Places.{Holds};
ghost use Rattle.plist_object.specs.Views.{numbers_of, octets_of};
ghost use Rattle.plist_keys.specs.Order.{Ascend, IsInOrder, NameTexts};
ghost use Rattle.plist_keys.specs.KeyOrder.{AreRows, AreTexts, IsRankOf, IsReady, IsSortedIn};
ghost use Rattle.plist_keys.specs.KeyOrder.{TellsOrder};
ghost use Rattle.plist_keys.specs.KeyOrder.{by_number, sort_key, index_of, indices_of, row_units};
ghost use Rattle.plist_keys.specs.Ranks.{AreRanks};

use crate::key_texts::{texts_of, texts_within};
use crate::keys::Keys;
use crate::prefixes;
use crate::ranks::Ranks;
use crate::sorted_keys::SortedKeys;
use plist_object::{BinFile, Refs, to_u32};
use plist_value::TextRef;
use std::alloc::{AllocError, Global};
use std::cmp::Ordering;
use std::mem;

// Up to this number of keys are sorted by their strings alone.
const FEW_KEYS: usize = 12;

// The most times that the rows of more keys are sorted by sort prefixes. Strings that are still
// tied are compared in full.
const ROUNDS: u32 = 4;

// One more than the greatest sort prefix.
const PREFIXES: u128 = 0x1_0000_0000_0000_0000;

// A key of the dictionary that is sorted. Rows are moved and compared in place of strings: if the
// numbers of two rows differ, the strings have the order of the numbers, and only if they are equal
// are the strings compared.
#[derive(Clone, Copy)]
pub(crate) struct Row {
    // The sort prefix of the string, or its rank.
    pub(crate) prefix: u64,
    // The position of the first row of its run, the rows that were equal by all earlier prefixes.
    pub(crate) run: u32,
    // The position of the key among the keys of the dictionary.
    pub(crate) index: u32,
}

impl Row {
    // Returns a number by which rows are sorted: first by their run, then by their prefix.
    pub(crate) fn number(&self) -> u128
        ensures { result ≡ sort_key self.now }
    {
        PREFIXES * u128::from(self.run) + u128::from(self.prefix)
    }
}

// The keys of a dictionary: their strings by position, and a row for each.
#[derive(Drop)]
struct TextRows<'a> {
    texts: Vec<TextRef<'a>>,
    list: Vec<Row>,
}

/// Sorts the keys of a file's dictionaries.
///
/// Most dictionaries have the same keys as the one before, so the last order is kept, and that of
/// the longest dictionary, which is often asked for again after others. Other keys are sorted by
/// their strings, until the strings compared so far are longer in all than the file. Then all keys
/// are ranked, once, and from there on ranks are compared.
#[derive(Drop)]
pub struct KeyOrder<'a> {
    last: SortedKeys<'a>,
    // The longest keys that were sorted before the last.
    longest: SortedKeys<'a>,
    // The keys that were last found to ascend in the order of the file.
    pub(crate) ascending: Option<Refs<'a>>,
    // The number of UTF-16 units that may still be compared; `None` once the keys are ranked.
    pub(crate) left: Option<u64>,
    pub(crate) ranks: Ranks<'a>,
}

impl<'a> KeyOrder<'a> {
    /// Creates an order that has not sorted any keys.
    pub fn new(alloc: Global, file: &BinFile<'a>) -> KeyOrder<'a>
        ensures { (f : List ℕ) → IsReady f result }
    {
        KeyOrder {
            last: SortedKeys::none(alloc),
            longest: SortedKeys::none(alloc),
            ascending: None,
            left: Some(file.table()),
            ranks: Ranks::none(alloc),
        }
    }

    /// Returns the positions of the keys sorted last, counted from 0, in ascending order of their
    /// strings by UTF-16 units.
    pub fn indices(&self) -> &[u32]
        ensures { result.now ≡ indices_of self.now }
    {
        &self.last.indices
    }

    /// Returns the order for another pass over the file, which may compare as many units as a new
    /// order.
    pub fn renewed(self, file: &BinFile<'a>) -> KeyOrder<'a>
        requires { IsReady (octets_of file.now) self }
        ensures { IsReady (octets_of file.now) result }
    {
        let mut order = self;
        if order.left.is_some() {
            order.left = Some(file.table());
        }
        order
    }

    /// Sorts the keys of a dictionary and returns whether no two are equal.
    /// [`indices`](KeyOrder::indices) then returns their order.
    ///
    /// # Errors
    ///
    /// [`AllocError`] if out of memory, or if there are 2^32 keys. The order can still be used.
    pub fn sort(
        &mut self,
        alloc: Global,
        file: &BinFile<'a>,
        keys: &Refs<'a>,
    ) -> Result<bool, AllocError>
        requires names { NameTexts (octets_of file.now) (numbers_of keys.now) }
        requires ready { IsReady (octets_of file.now) self.old }
        ensures order { OnOk result (IsInOrder (octets_of file.now) (numbers_of keys.now)
            (indices_of self.new)) }
        ensures distinct { IfOk result (λ distinct. IsTrue distinct
            ↔ Ascend (octets_of file.now) (numbers_of keys.now) (indices_of self.new)) }
        ensures ready { IsReady (octets_of file.now) self.new }
    {
        if self.longest.keys.is_same(keys) {
            mem::swap(&mut self.last, &mut self.longest);
        }
        if self.last.keys.is_same(keys) {
            return Ok(self.last.distinct);
        }
        let sorted = self.sorted(alloc, file, keys)?;
        let distinct = sorted.distinct;
        let before = mem::replace(&mut self.last, sorted);
        if before.keys.len() > self.longest.keys.len() {
            self.longest = before;
        }
        Ok(distinct)
    }

    // Returns the keys with their order.
    fn sorted(
        &mut self,
        alloc: Global,
        file: &BinFile<'a>,
        keys: &Refs<'a>,
    ) -> Result<SortedKeys<'a>, AllocError>
        requires names { NameTexts (octets_of file.now) (numbers_of keys.now) }
        requires ready { IsReady (octets_of file.now) self.old }
        ensures keys { IfOk result (λ sorted. numbers_of sorted.keys ≡ numbers_of keys.now) }
        ensures sorted { IfOk result (IsSortedIn (octets_of file.now)) }
        ensures ready { IsReady (octets_of file.now) self.new }
    {
        let TextRows { texts, mut list } = self.rows(alloc, file, keys)?;
        sort_rows(&mut list, &texts);
        let distinct = ascend(&list, &texts);
        let indices = indices_in_order(alloc, &list)?;
        Ok(SortedKeys {
            keys: *keys,
            indices,
            distinct,
        })
    }

    // Returns the keys of a dictionary, with numbers that agree with their order.
    fn rows(
        &mut self,
        alloc: Global,
        file: &BinFile<'a>,
        keys: &Refs,
    ) -> Result<TextRows<'a>, AllocError>
        requires names { NameTexts (octets_of file.now) (numbers_of keys.now) }
        requires ready { IsReady (octets_of file.now) self.old }
        ensures texts { IfOk result (λ rows. AreTexts (octets_of file.now) (numbers_of keys.now)
            rows.texts.items) }
        ensures rows { IfOk result (λ rows. AreRows rows.texts.items rows.list.items) }
        ensures ready { IsReady (octets_of file.now) self.new }
    {
        if let Some(left) = self.left {
            if let Some((texts, rest)) = texts_within(alloc, file, keys, left)? {
                self.left = Some(rest);
                return text_rows(alloc, texts);
            }
            self.ranks = Keys::of_reached(alloc, file)?.ranks(alloc, file)?;
            self.left = None;
        }
        ranked_rows(alloc, file, &self.ranks, keys)
    }
}

// Returns the keys numbered by their ranks, or like `text_rows` if one has no rank.
fn ranked_rows<'a>(
    alloc: Global,
    file: &BinFile<'a>,
    ranks: &Ranks<'a>,
    keys: &Refs,
) -> Result<TextRows<'a>, AllocError>
    requires names { NameTexts (octets_of file.now) (numbers_of keys.now) }
    requires ranks { AreRanks (octets_of file.now) ranks.now }
    ensures texts { IfOk result (λ rows. AreTexts (octets_of file.now) (numbers_of keys.now)
        rows.texts.items) }
    ensures rows { IfOk result (λ rows. AreRows rows.texts.items rows.list.items) }
{
    let mut texts = Vec::with_capacity(alloc, keys.len() as usize)?;
    let mut list = Vec::with_capacity(alloc, keys.len() as usize)?;
    for index in 0..keys.len() {
        let Some((prefix, text)) = ranked(ranks, keys.get(index)) else {
            return text_rows(alloc, texts_of(alloc, file, keys)?);
        };
        texts.push(text)?;
        list.push(Row {
            prefix,
            run: 0,
            index: to_u32(index)?,
        })?;
    }
    Ok(TextRows { texts, list })
}

// Returns the rank of the key that the object contains, if it has one, and its string.
fn ranked<'a>(ranks: &Ranks<'a>, object: u64) -> Option<(u64, TextRef<'a>)>
    ensures held { IfSome result (λ found. (f : List ℕ) → AreRanks f ranks.now
        → Holds f object (holds_scalar (text (units_of found.1)))) }
    ensures ranked { IfSome result (λ found. IsRankOf ranks.now found.0 (units_of found.1)) }
{
    let rank = ranks.get(object)?;
    Some((rank, ranks.text(rank)?))
}

// Returns the keys with these strings, sorted and numbered by sort prefixes if they are many.
fn text_rows<'a>(alloc: Global, texts: Vec<TextRef<'a>>) -> Result<TextRows<'a>, AllocError>
    ensures texts { IfOk result (λ rows. rows.texts.items ≡ texts.entry.items) }
    ensures rows { IfOk result (λ rows. AreRows texts.entry.items rows.list.items) }
{
    let mut list = Vec::with_capacity(alloc, texts.len())?;
    for index in 0..texts.len() {
        list.push(Row {
            prefix: 0,
            run: 0,
            index: to_u32(index as u64)?,
        })?;
    }
    sort_by_prefixes(list.as_mut_slice(), &texts);
    Ok(TextRows { texts, list })
}

// Sorts the rows of a long dictionary by sort prefixes, and then each run of rows with equal
// prefixes by those that follow. Each row gets its number here.
fn sort_by_prefixes(rows: &mut [Row], texts: &[TextRef])
    requires tell { All (λ row. All (TellsOrder texts.now row) rows.old) rows.old }
    requires sorted { IsNonDecreasingBy sort_key rows.old }
    requires small { length rows.old ≤ 2 ^ 32 }
    ensures tell { All (λ row. All (TellsOrder texts.now row) rows.new) rows.new }
    ensures moved { IsPermutation (map index_of rows.old) (map index_of rows.new) }
    ensures long { length rows.new ≡ length rows.old }
{
    if rows.len() <= FEW_KEYS {
        return;
    }
    for _ in 0..ROUNDS {
        if numbers_rise(&*rows) {
            return;
        }
        prefixes::sort_runs(&mut *rows, texts);
    }
}

// Sorts the rows. The numbers of many keys usually suffice.
fn sort_rows(rows: &mut Vec<Row>, texts: &[TextRef])
    ensures moved { IsPermutation rows.old.items rows.new.items }
    ensures sorted { IsSorted (by_number texts.now) rows.new.items }
{
    if rows.len() > FEW_KEYS {
        rows.sort_unstable_by_key(|row| row.number());
        if numbers_rise(&*rows) {
            return;
        }
    }
    rows.sort_unstable_by(|row, other| compare(texts, row, other));
}

// Compares two rows by their numbers, and by their strings if these are equal.
fn compare(texts: &[TextRef], row: &Row, other: &Row) -> Ordering
    ensures { result ≡ by_number texts.now row.now other.now }
{
    match row.number().cmp(&other.number()) {
        Ordering::Equal => text_at(texts, row).cmp(&text_at(texts, other)),
        order => order,
    }
}

// Returns whether each number is below the next.
fn numbers_rise(rows: &[Row]) -> bool
    ensures { IsTrue result → AllAdjacentBelow (λ row next. sort_key row < sort_key next)
        rows.now (length rows.now) }
{
    for i in 1..rows.len() {
        if rows[i - 1].number() >= rows[i].number() {
            return false;
        }
    }
    true
}

// Returns whether each string is below the next.
fn ascend(rows: &[Row], texts: &[TextRef]) -> bool
    requires { All (λ row. All (TellsOrder texts.now row) rows.now) rows.now }
    ensures { IsTrue result
        ↔ IsStrictlySortedBy (slice_cmp nat_cmp) (map (row_units texts.now) rows.now) }
{
    for i in 1..rows.len() {
        if !is_below(texts, &rows[i - 1], &rows[i]) {
            return false;
        }
    }
    true
}

fn is_below(texts: &[TextRef], row: &Row, next: &Row) -> bool
    requires { TellsOrder texts.now row.now next.now }
    ensures { IsTrue result ↔ (slice_cmp nat_cmp (row_units texts.now row.now)
        (row_units texts.now next.now) ≡ Ordering.Less) }
{
    row.number() < next.number() || text_at(texts, row) < text_at(texts, next)
}

// Returns the string of the key.
pub(crate) fn text_at<'a>(texts: &[TextRef<'a>], row: &Row) -> TextRef<'a>
    ensures { units_of result ≡ row_units texts.now row.now }
{
    match texts.get(row.index as usize) {
        Some(text) => *text,
        None => TextRef::of_units(&[]),
    }
}

fn indices_in_order(alloc: Global, rows: &[Row]) -> Result<Vec<u32>, AllocError>
    ensures { IfOk result (λ indices. indices.items ≡ map index_of rows.now) }
{
    let mut indices = Vec::with_capacity(alloc, rows.len())?;
    for row in rows {
        indices.push(row.index)?;
    }
    Ok(indices)
}
