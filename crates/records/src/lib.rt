// The records of a store of lists: one for each list, in a table that the host lends. The record of a key is the first in use that has it, and keys have ranks in ascending order.
#![tactic(auto)]

ghost use Rattle.std.specs.Prelude.{◌≡◌, ◌↔◌, ◌≢◌, ◌<◌, [], length, IsTrue, IfSome, MatchBool, Option as Maybe};
ghost use Rattle.order.specs.Keys.{Key, key_in};
ghost use Rattle.records.specs.Records.{Found, Ranked, reading_of, used_order};
ghost use Rattle.records.specs.Orders.{used_order_lawful};

mod record;

use order::{KeyRow, TotalOrder};
pub use record::ListRecord;
use std::cmp::Ordering;

impl ListRecord {
    // A free record, to fill a table with.
    pub fn blank() -> ListRecord
        ensures key { key_in result.name ≡ [] }
        ensures first { result.first ≡ 0 }
        ensures last { result.last ≡ 0 }
        ensures count { result.count ≡ 0 }
        ensures next { result.next ≡ 0 }
    {
        ListRecord {
            name: KeyRow::empty(),
            first: 0,
            last: 0,
            count: 0,
            next: 0,
        }
    }

    // Whether it is in use.
    fn is_used(&self) -> bool
        ensures { MatchBool result (self.now.first ≢ 0) (self.now.first ≡ 0) }
    {
        self.first != 0
    }

    // Whether it is in use with this key.
    fn is_of(&self, key: &[u8]) -> bool
        ensures { IsTrue result ↔ ((self.now.first ≢ 0) × (key_in self.now.name ≡ key.now)) }
    {
        self.is_used() && self.name.as_bytes() == key
    }
}

// Records in the order of their keys, the free ones after all those in use.
impl TotalOrder for ListRecord {
    ghost Reading = { Maybe Key };

    ghost reads = { reading_of };

    ghost order = { used_order };

    ghost lawful = { used_order_lawful };

    fn compare(&self, other: &Self) -> Ordering {
        match (self.is_used(), other.is_used()) {
            (true, true) => self.name.compare(&other.name),
            (true, false) => Ordering::Less,
            (false, true) => Ordering::Greater,
            (false, false) => Ordering::Equal,
        }
    }
}

// The place of the record in use with this key, the first where there are several.
pub fn find(records: &[ListRecord], key: &[u8]) -> Option<usize>
    ensures found { Found records.now key.now result }
    ensures within { IfSome result (λ place. place < length records.now) }
{
    records.iter().position(|it| it.is_of(key))
}

// The place of a record in use whose key has this rank (from 0) among the keys of all that are in use, in ascending order.
pub fn ranked(records: &[ListRecord], rank: usize) -> Option<usize>
    ensures { Ranked records.now rank result }
{
    let place = order::ranked(records, rank)?;
    if records[place].is_used() {
        return Some(place);
    }
    None
}
