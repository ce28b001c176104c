// A list store over one table of records that the host lends: a key's list is its records in the table's order.
#![tactic(auto)]

ghost use Rattle.std.specs.Prelude.{◌≡◌, ◌<◌, ◌≤◌, ◌↔◌, [], length, take, slice_set, slice_index_or, Ok, Err, IsSome, IfSome};
ghost use Rattle.std.specs.List.{insert, remove};
ghost use Rattle.store.specs.Lists.{at, put};
ghost use Rattle.store.specs.Lists.{held as elements};
ghost use Rattle.store.specs.Answers.{joined, Pushed, Popped, WasSet, Inserted, Removed};
ghost use Rattle.store.specs.Rows.{spot};
ghost use Rattle.flat.specs.Records.{key_of, value_of, row, rows_in, lists_in, room_of, flat_laws};
ghost use Rattle.flat.specs.Changes.{RowsPushed, RowsPopped, RowsSet, RowsInserted, RowsRemoved, Fit, joined_rows};

mod records;
mod table;

use records::{count, find, ranked};
use store::{
    LARGEST_STORE, LONGEST_KEY, LONGEST_VALUE, ListEnds, Refusal, Side, Unfit, WholeLists,
    ask_insert, ask_remove, ask_rows, ask_set,
};
pub use table::{Flat, Record};

// The empty store over a table of 1 to `LARGEST_STORE` records, or the table back.
pub fn prepare<'a>(records: &'a mut [Record]) -> Result<Flat<'a>, Unfit<&'a mut [Record]>>
    ensures { elim result [
      | Ok s ↦ Fit (length records.old) × (room_of s ≡ length records.old) × (rows_in s ≡ [])
      | Err e ↦ (Fit (length records.old) → ⊥) × (e.tables.now ≡ records.old)
    ] }
{
    if (1..=LARGEST_STORE).contains(&records.len()) {
        Ok(Flat { records, used: 0 })
    } else {
        Err(Unfit { tables: records })
    }
}

// What is done to the table, by the records' places.
impl<'a> Flat<'a> {
    // The records in use.
    fn in_use(&self) -> &[Record]
        ensures { result.now ≡ take self.now.used self.now.records.now }
    {
        &self.records[..self.used]
    }

    // Kept: no Option, since an insert at the end of a list goes just there where this says that there is no such element.
    // Where the record of an element stands; past the records in use where there is none.
    #[tactic(auto, using(crate::proofs::Tables::in_table, crate::proofs::Tables::within_table))]
    fn position(&self, key: &[u8], index: usize) -> usize
        ensures place { result ≡ spot key.now index (rows_in self.now) }
        ensures few { result ≤ self.now.used }
        ensures there { index < length (at (lists_in self.now) key.now) → result < self.now.used }
    {
        find(self.in_use(), key, index)
    }

    // The record of an element of a key's list.
    fn element(&self, key: &[u8], index: usize) -> Option<&Record>
        ensures some { IfSome result (λ it. value_of it.now ≡ slice_index_or (at (lists_in self.now) key.now) index []) }
        ensures there { IsSome result ↔ (index < length (at (lists_in self.now) key.now)) }
    {
        let place = self.position(key, index);
        self.in_use().get(place)
    }

    // Kept: that the room stays is said by each change, here and below: it is a fact of two states, and no value keeps it.
    // Puts a record in at a place, those from there on one place up.
    fn add_at(&mut self, slot: usize, it: Record)
        requires room { self.old.used < room_of self.old }
        requires within { slot ≤ self.old.used }
        ensures long { room_of self.new ≡ room_of self.old }
        ensures rows { rows_in self.new ≡ insert (rows_in self.old) slot (row it) }
    {
        self.records.copy_within(slot..self.used, slot + 1);
        self.records[slot] = it;
        self.used += 1;
    }

    // Writes a record over the one at a place.
    fn write(&mut self, slot: usize, it: Record)
        requires { slot < self.old.used }
        ensures long { room_of self.new ≡ room_of self.old }
        ensures rows { rows_in self.new ≡ slice_set (rows_in self.old) slot (row it) }
    {
        self.records[slot] = it;
    }

    // Takes the record at a place out, those behind it one place down.
    fn cut(&mut self, slot: usize)
        requires { slot < self.old.used }
        ensures long { room_of self.new ≡ room_of self.old }
        ensures rows { rows_in self.new ≡ remove (rows_in self.old) slot }
    {
        self.records.copy_within(slot + 1..self.used, slot);
        self.used -= 1;
    }
}

// The same by what it does to the lists.
impl<'a> Flat<'a> {
    // Adds an element at a side of a key's list.
    #[tactic(auto, using(crate::proofs::Tables::pushed_lists, crate::proofs::Tables::pushed_right, crate::proofs::Tables::held_is))]
    fn add_end(&mut self, side: Side, it: Record)
        requires room { elements (lists_in self.old) < room_of self.old }
        ensures long { room_of self.new ≡ room_of self.old }
        ensures rows { rows_in self.new ≡ joined_rows side (rows_in self.old) (row it) }
        ensures lists { lists_in self.new ≡ put (lists_in self.old) (key_of it) (joined side (at (lists_in self.old) (key_of it)) (value_of it)) }
    {
        match side {
            Side::Left => self.add_at(0, it),
            Side::Right => self.add_at(self.used, it),
        }
    }

    // Writes a record over that of an element of its key's list.
    #[tactic(auto, using(crate::proofs::Tables::set_lists, crate::proofs::Tables::held_is))]
    fn write_element(&mut self, index: usize, it: Record)
        requires { index < length (at (lists_in self.old) (key_of it)) }
        ensures long { room_of self.new ≡ room_of self.old }
        ensures rows { rows_in self.new ≡ slice_set (rows_in self.old) (spot (key_of it) index (rows_in self.old)) (row it) }
        ensures lists { lists_in self.new ≡ put (lists_in self.old) (key_of it) (slice_set (at (lists_in self.old) (key_of it)) index (value_of it)) }
    {
        let place = self.position(it.name.as_bytes(), index);
        self.write(place, it);
    }

    // Adds an element before one of a key's list, or at its end.
    #[tactic(auto, using(crate::proofs::Tables::inserted_lists, crate::proofs::Tables::held_is))]
    fn add_element(&mut self, index: usize, it: Record)
        requires room { elements (lists_in self.old) < room_of self.old }
        requires within { index ≤ length (at (lists_in self.old) (key_of it)) }
        ensures long { room_of self.new ≡ room_of self.old }
        ensures rows { rows_in self.new ≡ insert (rows_in self.old) (spot (key_of it) index (rows_in self.old)) (row it) }
        ensures lists { lists_in self.new ≡ put (lists_in self.old) (key_of it) (insert (at (lists_in self.old) (key_of it)) index (value_of it)) }
    {
        let place = self.position(it.name.as_bytes(), index);
        self.add_at(place, it);
    }

    // Takes an element of a key's list out.
    #[tactic(auto, using(crate::proofs::Tables::removed_lists, crate::proofs::Tables::held_is))]
    fn cut_element(&mut self, key: &[u8], index: usize)
        requires { index < length (at (lists_in self.old) key.now) }
        ensures long { room_of self.new ≡ room_of self.old }
        ensures rows { rows_in self.new ≡ remove (rows_in self.old) (spot key.now index (rows_in self.old)) }
        ensures lists { lists_in self.new ≡ put (lists_in self.old) key.now (remove (at (lists_in self.old) key.now) index) }
    {
        let place = self.position(key, index);
        self.cut(place);
    }
}

impl<'a> ListEnds for Flat<'a> {
    ghost room = { room_of };

    ghost lists = { lists_in };

    ghost laws = { flat_laws };

    fn capacity(&self) -> usize {
        self.records.len()
    }

    // Every record in use is an element.
    #[tactic(auto, using(crate::proofs::Tables::held_records))]
    fn held(&self) -> usize {
        self.in_use().len()
    }

    #[tactic(auto, using(crate::proofs::Tables::len_records))]
    fn len(&self, key: &[u8]) -> usize {
        count(self.in_use(), key)
    }

    fn value_at(&self, key: &[u8], index: usize, out: &mut [u8; LONGEST_VALUE]) -> Option<usize> {
        Some(self.element(key, index)?.value.copy_to(out))
    }

    #[tactic(auto, using(crate::proofs::Tables::room_more))]
    fn push(&mut self, side: Side, key: &[u8], value: &[u8]) -> Result<(), Refusal>
        ensures kept { room_of self.new ≡ room_of self.old }
        ensures pushed { Pushed (room_of self.old) (lists_in self.old) (lists_in self.new) side key.now value.now result }
        ensures rows { RowsPushed (rows_in self.old) (rows_in self.new) side key.now value.now result }
    {
        // Kept: room is asked for here and not by the store's question, since the checker takes a generic call inside this block for a recursion of the block.
        let (name, value) = ask_rows(key, value)?;
        if self.held() == self.capacity() {
            return Err(Refusal::Full);
        }
        self.add_end(side, Record { name, value });
        Ok(())
    }

    fn pop(&mut self, side: Side, key: &[u8], out: &mut [u8; LONGEST_VALUE]) -> Option<usize>
        ensures kept { room_of self.new ≡ room_of self.old }
        ensures popped { Popped (lists_in self.old) (lists_in self.new) side key.now out.old out.new result }
        ensures rows { RowsPopped (rows_in self.old) (rows_in self.new) side key.now result }
    {
        let end = side.index_in(self.len(key))?;
        let size = self.value_at(key, end, out)?;
        self.cut_element(key, end);
        Some(size)
    }

    fn key_at(&self, rank: usize, out: &mut [u8; LONGEST_KEY]) -> Option<usize> {
        let records = self.in_use();
        let place = ranked(records, rank)?;
        Some(records[place].name.copy_to(out))
    }
}

impl<'a> WholeLists for Flat<'a> {
    fn set(&mut self, key: &[u8], index: usize, value: &[u8]) -> Result<(), Refusal>
        ensures kept { room_of self.new ≡ room_of self.old }
        ensures was_set { WasSet (lists_in self.old) (lists_in self.new) key.now index value.now result }
        ensures rows { RowsSet (rows_in self.old) (rows_in self.new) key.now index value.now result }
    {
        let (name, value) = ask_set(&*self, key, index, value)?;
        self.write_element(index, Record { name, value });
        Ok(())
    }

    fn insert(&mut self, key: &[u8], index: usize, value: &[u8]) -> Result<(), Refusal>
        ensures kept { room_of self.new ≡ room_of self.old }
        ensures inserted { Inserted (room_of self.old) (lists_in self.old) (lists_in self.new) key.now index value.now result }
        ensures rows { RowsInserted (rows_in self.old) (rows_in self.new) key.now index value.now result }
    {
        let (name, value) = ask_insert(&*self, key, index, value)?;
        self.add_element(index, Record { name, value });
        Ok(())
    }

    fn remove(&mut self, key: &[u8], index: usize) -> Result<(), Refusal>
        ensures kept { room_of self.new ≡ room_of self.old }
        ensures removed { Removed (lists_in self.old) (lists_in self.new) key.now index result }
        ensures rows { RowsRemoved (rows_in self.old) (rows_in self.new) key.now index result }
    {
        ask_remove(&*self, key, index)?;
        self.cut_element(key, index);
        Ok(())
    }
}
