// Total orders, and the search for the least of a slice, for every type that has one.
#![tactic(auto)]

ghost use Rattle.std.specs.Prelude.{◌≡◌, ◌<◌, ◌≤◌, ◌++◌, [], length, drop, IfSome, Some, None, IsTrue, ◌↔◌, MatchOption, slice_index_or};
ghost use Rattle.std.specs.declared.cmp.Ordering.TheVariants.{Less};
ghost use Rattle.std.specs.declared.cmp.Ordering.{Ordering as Rank};
ghost use Rattle.std.specs.Option.{option_map};
ghost use Rattle.order.specs.Orders.{Lawful, After, Beats, FirstLeast, Ranked};
ghost use Rattle.order.specs.Keys.{Key, key_order, bytes_in, Holds};
ghost use Rattle.order.specs.KeyLaws.{key_order_lawful};

use std::cmp::Ordering;
use std::error::Error;
use std::fmt;

// The most bytes that a key has.
pub const LONGEST_KEY: usize = 32;

// Kept: not std's `Ord`, whose laws speak of the values alone: here a value reads as something, the order is one of readings, and of two different readings exactly one comes first.
// A type whose values stand in a total order by what they read as: two that read alike are one to the order.
pub trait TotalOrder {
    // What values read as, how they are read, and how readings are ordered.
    ghost Reading: { Type 0 };

    ghost reads: { Self → Reading };

    ghost order: { Reading → Reading → Rank };

    // Which of two values comes first.
    fn compare(&self, other: &Self) -> Ordering
        ensures { result ≡ order (reads self.now) (reads other.now) };

    ghost lawful: { Lawful order };
}

// Whether a comes before b.
fn comes_before<T: TotalOrder>(a: &T, b: &T) -> bool
    ensures { IsTrue result ↔ (T.order (T.reads a.now) (T.reads b.now) ≡ Less) }
{
    a.compare(b).is_lt()
}

// Whether an item comes after another, where there is one.
fn is_after<T: TotalOrder>(item: &T, from: Option<&T>) -> bool
    ensures { IsTrue result ↔ After T.order (option_map (λ b. T.reads b.now) from.entry) (T.reads item.now) }
{
    match from {
        None => true,
        Some(b) => comes_before(b, item),
    }
}

// Whether an item comes before the best so far, where there is one.
fn beats<T: TotalOrder>(item: &T, best: Option<(usize, &T)>) -> bool
    ensures { IsTrue result ↔ Beats T.order (option_map (λ b. T.reads b.1.now) best.entry) (T.reads item.now) }
{
    match best {
        None => true,
        Some((_, b)) => comes_before(item, b),
    }
}

// The first least of the items that come after another, or of all.
fn search<'a, T: TotalOrder>(items: &'a [T], from: Option<&'a T>) -> Option<usize>
    ensures within { IfSome result (λ i. i < length items.now) }
    ensures first { (d : T) → FirstLeast T.order (After T.order (option_map (λ b. T.reads b.now) from.entry)) (length items.now) (λ j. T.reads (slice_index_or items.now j d)) result }
{
    let mut best = None;
    for (i, item) in items.iter().enumerate() {
        if is_after(item, from) && beats(item, best) {
            best = Some((i, item));
        }
    }
    Some(best?.0)
}

// The index of the least item, the first where several are equal; none of an empty slice.
pub fn least<T: TotalOrder>(items: &[T]) -> Option<usize>
    ensures within { MatchOption result (length items.now ≡ 0) (λ i. i < length items.now) }
    ensures first { (d : T) → FirstLeast T.order (λ _. Unit {0}) (length items.now) (λ j. T.reads (slice_index_or items.now j d)) result }
{
    search(items, None)
}

// The same of the items that come after the one at `from`; none where there is no such item.
pub fn least_after<T: TotalOrder>(items: &[T], from: usize) -> Option<usize>
    ensures within { IfSome result (λ i. (i < length items.now) × (from < length items.now)) }
    ensures first { (d : T) → from < length items.now → FirstLeast T.order (After T.order (Some (T.reads (slice_index_or items.now from d)))) (length items.now) (λ j. T.reads (slice_index_or items.now j d)) result }
{
    search(items, Some(items.get(from)?))
}

// The index of an item by its rank among the values in ascending order, where equal ones have one rank; none past the last.
pub fn ranked<T: TotalOrder>(items: &[T], rank: usize) -> Option<usize>
    ensures within { IfSome result (λ i. i < length items.now) }
    ensures ranked { (d : T) → Ranked T.order (length items.now) (λ j. T.reads (slice_index_or items.now j d)) rank result }
{
    let mut found = least(items);
    for _ in 0..rank {
        found = least_after(items, found?);
    }
    found
}

// Keys byte by byte, unsigned, a proper beginning first.
fn compare_keys(a: &[u8], b: &[u8]) -> Ordering
    ensures { result ≡ key_order a.now b.now }
{
    a.cmp(&b)
}

// At most N bytes in place, as a plain part of a table's row: how many are its own, and room for all. Every such row has bytes,
// since a length past N reads as N. A length is one byte, so that there are 255 at the most.
// Kept: an array with a length beside it, since tables are rows of memory that the host lends, and nothing is allocated.
#[derive(Clone, Copy)]
pub struct ShortBytes<const N: usize> {
    pub len: u8,
    pub bytes: [u8; N],
}

// More bytes than there is room for.
#[derive(Clone, Copy, Debug, PartialEq, Eq)]
pub struct TooLong;

impl fmt::Display for TooLong {
    fn fmt<W: fmt::Write>(&self, f: &mut fmt::Formatter<W>) -> fmt::Result {
        f.write_str("too many bytes")
    }
}

impl Error for TooLong {}

// A key as a plain row of a table.
pub type KeyRow = ShortBytes<LONGEST_KEY>;

impl<'a, const N: usize> TryFrom<&'a [u8]> for ShortBytes<N> {
    type Error = TooLong;

    ghost try_from_gives = { λ bytes r. Holds N bytes.now r };

    fn try_from(bytes: &'a [u8]) -> Result<Self, TooLong> {
        let size = bytes.len();
        let Ok(len) = u8::try_from(size) else {
            return Err(TooLong);
        };
        if size > N {
            return Err(TooLong);
        }
        let mut row = [0; N];
        row[..size].copy_from_slice(bytes);
        Ok(ShortBytes { len, bytes: row })
    }
}

impl<const N: usize> ShortBytes<N> {
    // No bytes.
    pub fn empty() -> Self
        ensures { bytes_in result ≡ [] }
    {
        ShortBytes {
            len: 0,
            bytes: [0; N],
        }
    }

    // Its own bytes.
    pub fn as_bytes(&self) -> &[u8]
        ensures value { result.now ≡ bytes_in self.now }
        ensures few { length result.now ≤ N }
    {
        &self.bytes[..(self.len as usize).min(N)]
    }

    // Copies its own bytes to the beginning of `out`, and tells how many they are; the bytes behind them stay.
    pub fn copy_to(&self, out: &mut [u8; N]) -> usize
        ensures size { result ≡ length (bytes_in self.now) }
        ensures few { result ≤ N }
        ensures copied { out.new ≡ bytes_in self.now ++ drop (length (bytes_in self.now)) out.old }
    {
        let bytes = self.as_bytes();
        out[..bytes.len()].copy_from_slice(bytes);
        bytes.len()
    }
}

// Rows in the order of their bytes as keys.
impl<const N: usize> TotalOrder for ShortBytes<N> {
    ghost Reading = { Key };

    ghost reads = { bytes_in };

    ghost order = { key_order };

    ghost lawful = { key_order_lawful };

    fn compare(&self, other: &Self) -> Ordering {
        compare_keys(self.as_bytes(), other.as_bytes())
    }
}
