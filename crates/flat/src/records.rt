// Records by themselves and in a row: made, read, counted and found.
ghost use Rattle.std.specs.Prelude.{◌≡◌, ◌↔◌, [], length, IsTrue};
ghost use Rattle.order.specs.Keys.{Key, key_order};
ghost use Rattle.order.specs.KeyLaws.{key_order_lawful};
ghost use Rattle.store.specs.Rows.{values_of, spot, AtRank};
ghost use Rattle.flat.specs.Records.{key_of, row, rows};

use crate::table::Record;
use order::TotalOrder;
use std::cmp::Ordering;
use store::{KeyRow, ValueRow};

impl Record {
    // A record of the empty key with the empty value, to fill a table with.
    pub fn blank() -> Record
        ensures { row result ≡ ([], []) }
    {
        Record {
            name: KeyRow::empty(),
            value: ValueRow::empty(),
        }
    }

    fn has_key(&self, key: &[u8]) -> bool
        ensures { IsTrue result ↔ (key_of self.now ≡ key.now) }
    {
        self.name.as_bytes() == key
    }
}

// Records in the order of their keys.
impl TotalOrder for Record {
    ghost Reading = { Key };

    ghost reads = { key_of };

    ghost order = { key_order };

    ghost lawful = { key_order_lawful };

    fn compare(&self, other: &Self) -> Ordering {
        self.name.compare(&other.name)
    }
}

// How many records have the key.
pub(crate) fn count(records: &[Record], key: &[u8]) -> usize
    ensures { result ≡ length (values_of key.now (rows records.now)) }
{
    records.iter().filter(|it| it.has_key(key)).count()
}

// Kept: no Option, as in `Flat::position`.
// Where the record of `key` stands that has `index` others of it before it; the records' number where there is none.
pub(crate) fn find(records: &[Record], key: &[u8], index: usize) -> usize
    ensures { result ≡ spot key.now index (rows records.now) }
{
    let mut left = index;
    for (i, it) in records.iter().enumerate() {
        if it.has_key(key) {
            if left == 0 {
                return i;
            }
            left -= 1;
        }
    }
    records.len()
}

// A record with the key at a rank.
pub(crate) fn ranked(records: &[Record], rank: usize) -> Option<usize>
    ensures { AtRank (rows records.now) rank result }
{
    order::ranked(records, rank)
}
