// A listpack, in an array with room for the largest.
ghost use Rattle.std.specs.Prelude.{◌≡◌, ◌+◌, ◌<◌, ◌≤◌, ◌↔◌, false, [], ◌∷◌, ◌++◌, length, take, drop, slice_set, Err, IsTrue, IsOk, OnOk, OnErr, IfOk, IsOkUnless};
ghost use Rattle.std.specs.List.{insert, remove};
ghost use Rattle.store.specs.Limits.{longest_value};
ghost use Rattle.store.specs.Answers.{Copied};
ghost use Rattle.listpack.specs.Layout.{most_bytes, total, pack, read, Lawful};
ghost use Rattle.listpack.specs.Places.{place, Run, exchanged};

use crate::bytes::{splice, write_header};
use entry::{LONGEST_ENTRY, decode, encode, span};
use std::error::Error;
use std::fmt;
use store::LONGEST_VALUE;

// The most bytes that a listpack has.
pub const MOST_BYTES: usize = 508;

// Kept: an array of the largest size, since listpacks lie in nodes of a table that the host lends.
#[derive(Clone, Copy)]
pub struct Listpack {
    bytes: [u8; MOST_BYTES],
    ghost lawful: { Lawful bytes },
}

// Why a listpack is left as it was. Where several reasons apply, the first of them here is told.
#[derive(Clone, Copy, Debug, PartialEq, Eq, Hash)]
pub enum PackError {
    // There is no value at the index.
    OutOfRange,
    // The value has more bytes than `LONGEST_VALUE`.
    LongValue,
    // The values would need more bytes than `MOST_BYTES`.
    Full,
}

impl fmt::Display for PackError {
    fn fmt<W: fmt::Write>(&self, f: &mut fmt::Formatter<W>) -> fmt::Result {
        match self {
            PackError::OutOfRange => write!(f, "no such index"),
            PackError::LongValue => write!(f, "the value is too long"),
            PackError::Full => write!(f, "no room in the listpack"),
        }
    }
}

impl Error for PackError {}

impl Default for Listpack {
    ghost use Rattle.listpack.specs.Packs.{values_in};

    ghost is_default = { λ p. values_in p ≡ [] };

    fn default() -> Listpack {
        Listpack::empty()
    }
}

// What is read.
impl Listpack {
    ghost use Rattle.listpack.specs.Packs.{takes, values_in};

    // The listpack of no values.
    pub fn empty() -> Listpack
        ensures { values_in result ≡ [] }
    {
        let mut bytes = [0; MOST_BYTES];
        bytes[0] = 7;
        bytes[6] = 255;
        Listpack { bytes }
    }

    // How many bytes it has: the two low bytes of four say it.
    fn size(&self) -> usize
        ensures some { 7 ≤ result }
        ensures most { result ≤ most_bytes }
        ensures said { result ≡ total (values_in self.now) }
    {
        u16::from_le_bytes([self.bytes[0], self.bytes[1]]) as usize
    }

    // How many values it holds.
    pub fn count(&self) -> usize
        ensures value { result ≡ length (values_in self.now) }
        ensures few { result ≤ 250 }
    {
        u16::from_le_bytes([self.bytes[4], self.bytes[5]]) as usize
    }

    // Its bytes, from the length to the final FF.
    pub fn as_bytes(&self) -> &[u8]
        ensures { result.now ≡ pack (values_in self.now) }
    {
        &self.bytes[..self.size()]
    }

    // Where the entry at `next` begins, found from where the one at `index` does.
    // Kept: `index ≤ next` ties two arguments to each other and to the listpack, here and in three changes below. A struct of both
    // would be built and taken apart again at each of these calls.
    fn place_from(&self, from: usize, index: usize, next: usize) -> usize
        requires here { from ≡ place (values_in self.now) index }
        requires order { index ≤ next }
        requires within { next ≤ length (values_in self.now) }
        ensures there { result ≡ place (values_in self.now) next }
        ensures onward { from ≤ result }
        ensures below { result < total (values_in self.now) }
    {
        let mut at = from;
        // Kept: a `fold` was tried. Its closure must know that an entry begins at `at`: it needs three clauses, or a function with
        // them, which is longer than this loop and its one line of invariant.
        for _ in index..next {
            at += span(&self.bytes[at..]).unwrap();
        }
        at
    }

    // Where the entry at an index begins; at the count of entries, where they end.
    fn place_at(&self, index: usize) -> usize
        requires { index ≤ length (values_in self.now) }
        ensures there { result ≡ place (values_in self.now) index }
        ensures below { result < total (values_in self.now) }
    {
        if index == self.count() {
            return self.size() - 1;
        }
        self.place_from(6, 0, index)
    }

    // Copies the value at an index to the beginning of `out`, and tells its length; none past the last value.
    pub fn value_at(&self, index: usize, out: &mut [u8; LONGEST_VALUE]) -> Option<usize>
        ensures { Copied longest_value (values_in self.now) index out.old out.new result }
    {
        if index >= self.count() {
            return None;
        }
        let (size, _span) = decode(&self.bytes[self.place_at(index)..], out).unwrap();
        Some(size)
    }

    // Whether a value is short enough, and fits beside those that are held.
    pub fn takes(&self, value: &[u8]) -> bool
        ensures { IsTrue result ↔ ((length value.now ≤ longest_value) × IsTrue (takes (values_in self.now) value.now)) }
    {
        let Some(n) = encode(value, &mut [0; LONGEST_ENTRY]) else {
            return false;
        };
        self.size() + n <= MOST_BYTES
    }
}

// What is changed.
impl Listpack {
    ghost use Rattle.listpack.specs.Packs.{takes, swaps, values_in};
    ghost use Rattle.listpack.specs.Changes.{Answered};

    // Puts `new`, which is `more` entries, in the place of the entries from `index` up to `next`, if that fits.
    // Kept: that an error leaves the values as they were (`err`) stands at each change: it is a fact of two states, which no type keeps.
    fn exchange(
        &mut self,
        index: usize,
        next: usize,
        new: &[u8],
        more: usize,
    ) -> Result<(), PackError>
        requires order { index ≤ next }
        requires within { next ≤ length (values_in self.old) }
        requires most { length new.now ≤ most_bytes }
        requires run { Run more new.now }
        ensures only { IsOkUnless result PackError.Full }
        ensures fits { OnOk result (total (exchanged (values_in self.old) index next (read more new.now)) ≤ most_bytes) }
        ensures full { OnErr result (most_bytes < total (exchanged (values_in self.old) index next (read more new.now))) }
        ensures ok { OnOk result (values_in self.new ≡ exchanged (values_in self.old) index next (read more new.now)) }
        ensures err { OnErr result (values_in self.new ≡ values_in self.old) }
    {
        let from = self.place_at(index);
        let to = self.place_from(from, index, next);
        let end = self.size();
        let size = end - (to - from) + new.len();
        if size > MOST_BYTES {
            return Err(PackError::Full);
        }
        let count = self.count() - (next - index) + more;
        splice(&mut self.bytes, from, to, new, end);
        write_header(&mut self.bytes, size, count);
        Ok(())
    }

    // Puts the entry of a value in the place of the entries from `index` up to `next`.
    fn put(&mut self, index: usize, next: usize, value: &[u8]) -> Result<(), PackError>
        requires order { index ≤ next }
        requires within { next ≤ length (values_in self.old) }
        ensures answered { Answered value.now (exchanged (values_in self.old) index next (value.now ∷ [])) result }
        ensures ok { OnOk result (values_in self.new ≡ exchanged (values_in self.old) index next (value.now ∷ [])) }
        ensures err { OnErr result (values_in self.new ≡ values_in self.old) }
    {
        let mut entry = [0; LONGEST_ENTRY];
        let n = encode(value, &mut entry).ok_or(PackError::LongValue)?;
        self.exchange(index, next, &entry[..n], 1)
    }

    // Takes the values from `index` up to `next` out.
    fn take_out(&mut self, index: usize, next: usize)
        requires order { index ≤ next }
        requires within { next ≤ length (values_in self.old) }
        ensures { values_in self.new ≡ exchanged (values_in self.old) index next [] }
    {
        self.exchange(index, next, &[], 0).unwrap();
    }

    // Puts a value in before the one at an index, or at the end where the index is the count.
    pub fn insert(&mut self, index: usize, value: &[u8]) -> Result<(), PackError>
        ensures made { IsOk result ↔ ((index ≤ length (values_in self.old)) × (length value.now ≤ longest_value) × IsTrue (takes (values_in self.old) value.now)) }
        ensures out_of_range { (result ≡ Err PackError.OutOfRange) ↔ (length (values_in self.old) < index) }
        ensures long_value { (result ≡ Err PackError.LongValue) ↔ ((index ≤ length (values_in self.old)) × (longest_value < length value.now)) }
        ensures full { (result ≡ Err PackError.Full) ↔ ((index ≤ length (values_in self.old)) × (length value.now ≤ longest_value) × (takes (values_in self.old) value.now ≡ false)) }
        ensures ok { OnOk result (values_in self.new ≡ insert (values_in self.old) index value.now) }
        ensures err { OnErr result (values_in self.new ≡ values_in self.old) }
    {
        if index > self.count() {
            return Err(PackError::OutOfRange);
        }
        self.put(index, index, value)
    }

    // The same before all others.
    pub fn prepend(&mut self, value: &[u8]) -> Result<(), PackError>
        ensures made { IsOk result ↔ ((length value.now ≤ longest_value) × IsTrue (takes (values_in self.old) value.now)) }
        ensures long_value { (result ≡ Err PackError.LongValue) ↔ (longest_value < length value.now) }
        ensures full { (result ≡ Err PackError.Full) ↔ ((length value.now ≤ longest_value) × (takes (values_in self.old) value.now ≡ false)) }
        ensures ok { OnOk result (values_in self.new ≡ value.now ∷ values_in self.old) }
        ensures err { OnErr result (values_in self.new ≡ values_in self.old) }
    {
        self.insert(0, value)
    }

    // The same behind all others.
    pub fn append(&mut self, value: &[u8]) -> Result<(), PackError>
        ensures made { IsOk result ↔ ((length value.now ≤ longest_value) × IsTrue (takes (values_in self.old) value.now)) }
        ensures long_value { (result ≡ Err PackError.LongValue) ↔ (longest_value < length value.now) }
        ensures full { (result ≡ Err PackError.Full) ↔ ((length value.now ≤ longest_value) × (takes (values_in self.old) value.now ≡ false)) }
        ensures ok { OnOk result (values_in self.new ≡ values_in self.old ++ value.now ∷ []) }
        ensures err { OnErr result (values_in self.new ≡ values_in self.old) }
    {
        self.insert(self.count(), value)
    }

    // Puts a value in the place of the one at an index.
    pub fn replace(&mut self, index: usize, value: &[u8]) -> Result<(), PackError>
        ensures made { IsOk result ↔ ((index < length (values_in self.old)) × (length value.now ≤ longest_value) × IsTrue (swaps (values_in self.old) index value.now)) }
        ensures out_of_range { (result ≡ Err PackError.OutOfRange) ↔ (length (values_in self.old) ≤ index) }
        ensures long_value { (result ≡ Err PackError.LongValue) ↔ ((index < length (values_in self.old)) × (longest_value < length value.now)) }
        ensures full { (result ≡ Err PackError.Full) ↔ ((index < length (values_in self.old)) × (length value.now ≤ longest_value) × (swaps (values_in self.old) index value.now ≡ false)) }
        ensures ok { OnOk result (values_in self.new ≡ slice_set (values_in self.old) index value.now) }
        ensures err { OnErr result (values_in self.new ≡ values_in self.old) }
    {
        if index >= self.count() {
            return Err(PackError::OutOfRange);
        }
        self.put(index, index + 1, value)
    }

    // Takes the value at an index out.
    pub fn remove(&mut self, index: usize) -> Result<(), PackError>
        ensures only { IsOkUnless result PackError.OutOfRange }
        ensures made { IsOk result ↔ (index < length (values_in self.old)) }
        ensures ok { OnOk result (values_in self.new ≡ remove (values_in self.old) index) }
        ensures err { OnErr result (values_in self.new ≡ values_in self.old) }
    {
        if index >= self.count() {
            return Err(PackError::OutOfRange);
        }
        self.take_out(index, index + 1);
        Ok(())
    }

    // The listpack of the values from an index on.
    fn copy_back(&self, index: usize) -> Listpack
        requires { index ≤ length (values_in self.now) }
        ensures { values_in result ≡ drop index (values_in self.now) }
    {
        let from = self.place_at(index);
        let end = self.size() - 1;
        let mut back = Listpack::empty();
        back.exchange(0, 0, &self.bytes[from..end], self.count() - index)
            .unwrap();
        back
    }

    // Keeps the values before an index, and gives those from it on in a listpack of their own.
    pub fn split_off(&mut self, index: usize) -> Result<Listpack, PackError>
        ensures only { IsOkUnless result PackError.OutOfRange }
        ensures made { IsOk result ↔ (index ≤ length (values_in self.old)) }
        ensures front { OnOk result (values_in self.new ≡ take index (values_in self.old)) }
        ensures back { IfOk result (λ back. values_in back ≡ drop index (values_in self.old)) }
        ensures err { OnErr result (values_in self.new ≡ values_in self.old) }
    {
        let count = self.count();
        if index > count {
            return Err(PackError::OutOfRange);
        }
        let back = self.copy_back(index);
        self.take_out(index, count);
        Ok(back)
    }
}
