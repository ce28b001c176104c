// What a list store means, and the two traits by which it is used: its ends, and over them whole lists.
#![tactic(auto)]

ghost use Rattle.std.specs.Prelude.{◌≡◌, ℕ, ◌<◌, ◌↔◌, length, IsNone, IfSome};
ghost use Rattle.order.specs.Keys.{longest_key};
ghost use Rattle.store.specs.Limits.{longest_value};
ghost use Rattle.store.specs.Lists.{Lists, StoreLaws, ListLaws, at, keys_of};
ghost use Rattle.store.specs.Lists.{held as elements};
ghost use Rattle.store.specs.Rows.{RowLaws};
ghost use Rattle.store.specs.Answers.{place, Copied, Pushed, Popped, WasSet, Inserted, Removed};

mod questions;
mod refusal;
mod walks;

use order::ShortBytes;
pub use order::{KeyRow, LONGEST_KEY};
pub use questions::{ask_insert, ask_remove, ask_rows, ask_set, is_full, room_left};
pub use refusal::{Refusal, Unfit};
pub use walks::{KeysOf, ValuesOf, keys, values};

// The most bytes that a value has.
pub const LONGEST_VALUE: usize = 64;

// The most elements that a store can be made for.
pub const LARGEST_STORE: usize = 4096;

// A value as a plain row of a table.
pub type ValueRow = ShortBytes<LONGEST_VALUE>;

#[derive(Clone, Copy, Debug, PartialEq, Eq)]
pub enum Side {
    Left,
    Right,
}

impl Side {
    // The index of the value on this side of a list of n values, if it has one.
    pub fn index_in(self, n: usize) -> Option<usize>
        ensures none { IsNone result ↔ (n ≡ 0) }
        ensures value { IfSome result (λ i. i ≡ place self n) }
        ensures within { IfSome result (λ i. i < n) }
    {
        let last = n.checked_sub(1)?;
        Some(match self {
            Side::Left => 0,
            Side::Right => last,
        })
    }
}

// A list store by the ends of its lists.
pub trait ListEnds {
    // The capacity and the lists that a store stands for.
    ghost room: { Self → ℕ };

    ghost lists: { Self → Lists };

    // How many elements fit in all.
    fn capacity(&self) -> usize
        ensures { result ≡ room self.now };

    // How many elements it holds in all.
    fn held(&self) -> usize
        ensures { result ≡ elements (lists self.now) };

    // How many elements the list of a key has.
    fn len(&self, key: &[u8]) -> usize
        ensures { result ≡ length (at (lists self.now) key.now) };

    // Kept: the caller's array is filled and the length told, here and in `pop` and `key_at`, since all memory is lent and the bytes behind the copy stay.
    // Copies the value at an index of a key's list to the beginning of `out`, and tells its length; none past the list's end.
    fn value_at(&self, key: &[u8], index: usize, out: &mut [u8; LONGEST_VALUE]) -> Option<usize>
        ensures { Copied longest_value (at (lists self.now) key.now) index out.old out.new result };

    // Adds a value at a side of a key's list.
    fn push(&mut self, side: Side, key: &[u8], value: &[u8]) -> Result<(), Refusal>
        ensures kept { room self.new ≡ room self.old }
        ensures pushed { Pushed (room self.old) (lists self.old) (lists self.new) side key.now value.now result };

    // Takes the value at a side of a key's list out, copied as by `value_at`; none where the list is empty.
    fn pop(&mut self, side: Side, key: &[u8], out: &mut [u8; LONGEST_VALUE]) -> Option<usize>
        ensures kept { room self.new ≡ room self.old }
        ensures popped { Popped (lists self.old) (lists self.new) side key.now out.old out.new result };

    // Copies the key at a rank, in ascending order, to the beginning of `out`, and tells its length; none past the last key.
    fn key_at(&self, rank: usize, out: &mut [u8; LONGEST_KEY]) -> Option<usize>
        ensures { Copied longest_key (keys_of (lists self.now)) rank out.old out.new result };

    // What holds of the capacity and the lists in every state.
    ghost laws: { (s : Self) → StoreLaws (room s) (lists s) };
}

// A list store whose lists can be changed at any index.
pub trait WholeLists: ListEnds {
    // Writes a value over the one at an index.
    fn set(&mut self, key: &[u8], index: usize, value: &[u8]) -> Result<(), Refusal>
        ensures kept { Self.ListEnds.room self.new ≡ Self.ListEnds.room self.old }
        ensures was_set { WasSet (Self.ListEnds.lists self.old) (Self.ListEnds.lists self.new) key.now index value.now result };

    // Adds a value before the one at an index, or at the end where the index is the length.
    fn insert(&mut self, key: &[u8], index: usize, value: &[u8]) -> Result<(), Refusal>
        ensures kept { Self.ListEnds.room self.new ≡ Self.ListEnds.room self.old }
        ensures inserted { Inserted (Self.ListEnds.room self.old) (Self.ListEnds.lists self.old) (Self.ListEnds.lists self.new) key.now index value.now result };

    // Takes the value at an index out.
    fn remove(&mut self, key: &[u8], index: usize) -> Result<(), Refusal>
        ensures kept { Self.ListEnds.room self.new ≡ Self.ListEnds.room self.old }
        ensures removed { Removed (Self.ListEnds.lists self.old) (Self.ListEnds.lists self.new) key.now index result };
}

// The laws of `Lists` and of rows stand in contracts here, so that none can be dropped.
fn lists_are_lawful()
    ensures { ListLaws }
{}

fn rows_are_lawful()
    ensures { RowLaws }
{}
