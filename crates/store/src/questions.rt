// What is asked before a store is changed, the same of every store: the first question that fails is the refusal.
ghost use Rattle.std.specs.Prelude.{◌≡◌, ◌+◌, ◌<◌, ◌≤◌, ◌↔◌, length, IsTrue, OnOk, IfOk, nat_le};
ghost use Rattle.order.specs.Keys.{key_in, longest_key};
ghost use Rattle.store.specs.declared.refusal.Refusal.TheVariants.{LongKey, OutOfRange};
ghost use Rattle.store.specs.Lists.{at};
ghost use Rattle.store.specs.Lists.{held as elements};
ghost use Rattle.store.specs.Answers.{answer, asked, too_long, rows_answer, value_in, push_answer, set_answer, insert_answer, remove_answer};

use crate::{KeyRow, ListEnds, Refusal, ValueRow};
use order::LONGEST_KEY;

// How many elements more fit.
pub fn room_left<S: ListEnds>(store: &S) -> usize
    ensures { result + elements (S.lists store.now) ≡ S.room store.now }
{
    store.capacity() - store.held()
}

// Whether no element more fits.
pub fn is_full<S: ListEnds>(store: &S) -> bool
    ensures full { IsTrue result ↔ (elements (S.lists store.now) ≡ S.room store.now) }
{
    room_left(store) == 0
}

// Before anything else: the key as a row.
fn ask_key(key: &[u8]) -> Result<KeyRow, Refusal>
    ensures asked { answer result ≡ asked (too_long longest_key key.now) LongKey 0 }
    ensures row { IfOk result (λ row. key_in row ≡ key.now) }
{
    KeyRow::try_from(key).map_err(|_| Refusal::LongKey)
}

// Then of a value: the key and the value as rows, where neither is too long.
pub fn ask_rows(key: &[u8], value: &[u8]) -> Result<(KeyRow, ValueRow), Refusal>
    ensures asked { answer result ≡ rows_answer key.now value.now }
    ensures rows { IfOk result (λ rows. (key_in rows.0 ≡ key.now) × (value_in rows.1 ≡ value.now)) }
{
    let named = ask_key(key)?;
    let valued = ValueRow::try_from(value).map_err(|_| Refusal::LongValue)?;
    Ok((named, valued))
}

// Then of an addition: that the store is not full.
fn ask_room<S: ListEnds>(store: &S, key: &[u8], value: &[u8]) -> Result<(KeyRow, ValueRow), Refusal>
    ensures asked { answer result ≡ push_answer (S.room store.now) (S.lists store.now) key.now value.now }
    ensures rows { IfOk result (λ rows. (key_in rows.0 ≡ key.now) × (value_in rows.1 ≡ value.now)) }
    ensures room { OnOk result (elements (S.lists store.now) < S.room store.now) }
{
    let rows = ask_rows(key, value)?;
    if is_full(store) {
        return Err(Refusal::Full);
    }
    Ok(rows)
}

// Of an index: that a value of the key's list stands there.
fn ask_index<S: ListEnds>(store: &S, key: &[u8], index: usize) -> Result<(), Refusal>
    ensures asked { answer result ≡ asked (nat_le (length (at (S.lists store.now) key.now)) index) OutOfRange 0 }
    ensures within { OnOk result (index < length (at (S.lists store.now) key.now)) }
{
    if index >= store.len(key) {
        return Err(Refusal::OutOfRange);
    }
    Ok(())
}

// All that is asked before a value is written over the one at an index: the key and the value as rows.
pub fn ask_set<S: ListEnds>(
    store: &S,
    key: &[u8],
    index: usize,
    value: &[u8],
) -> Result<(KeyRow, ValueRow), Refusal>
    ensures asked { answer result ≡ set_answer (S.lists store.now) key.now index value.now }
    ensures rows { IfOk result (λ rows. (key_in rows.0 ≡ key.now) × (value_in rows.1 ≡ value.now)) }
    ensures within { OnOk result (index < length (at (S.lists store.now) key.now)) }
{
    let (name, row) = ask_rows(key, value)?;
    ask_index(store, key, index)?;
    Ok((name, row))
}

// All that is asked before a value is put in before the one at an index, or at the end: the key and the value as rows.
pub fn ask_insert<S: ListEnds>(
    store: &S,
    key: &[u8],
    index: usize,
    value: &[u8],
) -> Result<(KeyRow, ValueRow), Refusal>
    ensures asked { answer result ≡ insert_answer (S.room store.now) (S.lists store.now) key.now index value.now }
    ensures rows { IfOk result (λ rows. (key_in rows.0 ≡ key.now) × (value_in rows.1 ≡ value.now)) }
    ensures room { OnOk result (elements (S.lists store.now) < S.room store.now) }
    ensures within { OnOk result (index ≤ length (at (S.lists store.now) key.now)) }
{
    let rows = ask_room(store, key, value)?;
    if index > store.len(key) {
        return Err(Refusal::OutOfRange);
    }
    Ok(rows)
}

// All that is asked before the value at an index is taken out: the key as a row.
pub fn ask_remove<S: ListEnds>(store: &S, key: &[u8], index: usize) -> Result<KeyRow, Refusal>
    ensures asked { answer result ≡ remove_answer (S.lists store.now) key.now index }
    ensures row { IfOk result (λ row. key_in row ≡ key.now) }
    ensures within { OnOk result (index < length (at (S.lists store.now) key.now)) }
{
    let name = ask_key(key)?;
    ask_index(store, key, index)?;
    Ok(name)
}
