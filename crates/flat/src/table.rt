// The table of a flat store: records that the host lends, those in use in front.
ghost use Rattle.std.specs.Prelude.{◌≤◌, length};
ghost use Rattle.store.specs.Limits.{largest_store};

use store::{KeyRow, ValueRow};

// A key and one value of its list.
#[derive(Clone, Copy)]
pub struct Record {
    pub(crate) name: KeyRow,
    pub(crate) value: ValueRow,
}

// Kept: a slice with the number of records in use beside it, since the table is the host's and nothing is allocated.
#[derive(Drop)]
pub struct Flat<'a> {
    pub(crate) records: &'a mut [Record],
    pub(crate) used: usize,
    ghost some: { 1 ≤ length records.now },
    ghost few: { length records.now ≤ largest_store },
    ghost fits: { used ≤ length records.now },
}
