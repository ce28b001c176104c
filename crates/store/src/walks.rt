// The values of a list and the keys of a store, one after another.
ghost use Rattle.std.specs.Prelude.{◌≡◌, List, ℕ, drop, length};
ghost use Rattle.std.specs.Iterator.{at_most};
ghost use Rattle.std.specs.Option.{option_map};
ghost use Rattle.order.specs.Keys.{key_in};
ghost use Rattle.store.specs.Lists.{at, keys_of};
ghost use Rattle.store.specs.Answers.{value_in};
ghost use Rattle.store.specs.Walks.{GivesFirst};

use crate::{KeyRow, LONGEST_KEY, LONGEST_VALUE, ListEnds, ValueRow};
use std::marker::Model;

// Kept: two walks beside each other: each reads the store by another method into another row, and the rest is the two lines around that.
// The values of a key's list that are still to come, those from an index on.
#[derive(Drop)]
pub struct ValuesOf<'a, S: ListEnds> {
    store: &'a S,
    key: &'a [u8],
    next: usize,
}

impl<'a, S: ListEnds> Model for ValuesOf<'a, S> {
    ghost Value = { List (List ℕ) };

    ghost view = { λ walk. drop walk.next (at (S.lists walk.store.now) walk.key.now) };
}

// The values of a key's list, the first one first.
pub fn values<'a, S: ListEnds>(store: &'a S, key: &'a [u8]) -> ValuesOf<'a, S>
    ensures { result ≡ at (S.lists store.now) key.now }
{
    ValuesOf {
        store,
        key,
        next: 0,
    }
}

impl<'a, S: ListEnds> Iterator for ValuesOf<'a, S> {
    type Item = ValueRow;

    ghost next_gives = { λ walk r after. GivesFirst walk (option_map value_in r) after };

    ghost remaining = { λ walk. at_most (length walk) };

    fn next(&mut self) -> Option<ValueRow> {
        let mut bytes = [0; LONGEST_VALUE];
        let size = self.store.value_at(self.key, self.next, &mut bytes)?;
        self.next += 1;
        Some(ValueRow {
            len: size as u8,
            bytes,
        })
    }
}

// The keys of a store that are still to come, those from a rank on.
#[derive(Drop)]
pub struct KeysOf<'a, S: ListEnds> {
    store: &'a S,
    next: usize,
}

impl<'a, S: ListEnds> Model for KeysOf<'a, S> {
    ghost Value = { List (List ℕ) };

    ghost view = { λ walk. drop walk.next (keys_of (S.lists walk.store.now)) };
}

// The keys of a store in ascending order.
pub fn keys<'a, S: ListEnds>(store: &'a S) -> KeysOf<'a, S>
    ensures { result ≡ keys_of (S.lists store.now) }
{
    KeysOf { store, next: 0 }
}

impl<'a, S: ListEnds> Iterator for KeysOf<'a, S> {
    type Item = KeyRow;

    ghost next_gives = { λ walk r after. GivesFirst walk (option_map key_in r) after };

    ghost remaining = { λ walk. at_most (length walk) };

    fn next(&mut self) -> Option<KeyRow> {
        let mut bytes = [0; LONGEST_KEY];
        let size = self.store.key_at(self.next, &mut bytes)?;
        self.next += 1;
        Some(KeyRow {
            len: size as u8,
            bytes,
        })
    }
}
