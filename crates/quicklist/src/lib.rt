// A list store over two tables that the host lends: nodes, each with a listpack of values, and list records. A list is a chain of nodes.
#![tactic(auto)]

ghost use Rattle.std.specs.Prelude.{◌≡◌, ◌<◌, ◌≤◌, false, [], length, slice_set, Some, Ok, Err, Decides};
ghost use Rattle.std.specs.List.{insert, remove};
ghost use Rattle.order.specs.Keys.{key_in, longest_key};
ghost use Rattle.store.specs.Limits.{longest_value};
ghost use Rattle.store.specs.Lists.{at, put, keys_of};
ghost use Rattle.store.specs.Lists.{held as elements};
ghost use Rattle.store.specs.Answers.{joined, place, Copied, Pushed, Popped, WasSet, Inserted, Removed};
ghost use Rattle.listpack.specs.Packs.{takes, swaps};
ghost use Rattle.nodes.specs.Nodes.{pushed, popped, added, cut, changed};
ghost use Rattle.quicklist.specs.Laws.{room_of, lists_in, nodes_for, quicklist_laws};
ghost use Rattle.quicklist.specs.Changes.{Fit, Recut, NodesPushed, NodesPopped, NodesSet, NodesInserted, NodesRemoved};

mod chains;
mod keyed;
mod lists;
mod packs;
mod table;
mod ties;
mod whole;

pub use keyed::Quicklist;
use packs::ShortValue;
pub use records::ListRecord;
use store::{
    LARGEST_STORE, LONGEST_KEY, LONGEST_VALUE, ListEnds, Refusal, Side, Unfit, WholeLists,
    ask_insert, ask_remove, ask_rows, ask_set,
};
pub use table::Node;
use table::Tables;

// Kept: two tables in one struct, since the host lends them so; `prepare` is given them apart, and hands them on apart until a store keeps both.
// The two tables of a store, as they are lent.
#[derive(Drop)]
pub struct Lent<'a> {
    pub nodes: &'a mut [Node],
    pub lists: &'a mut [ListRecord],
}

// The empty store over two tables of one length, 1 to `LARGEST_STORE`, or the tables back.
pub fn prepare<'a>(
    nodes: &'a mut [Node],
    lists: &'a mut [ListRecord],
) -> Result<Quicklist<'a>, Unfit<Lent<'a>>>
    ensures { elim result [
      | Ok s ↦ Fit (length nodes.old) (length lists.old) × (room_of s ≡ length nodes.old) × (lists_in s ≡ [])
      | Err e ↦ (Fit (length nodes.old) (length lists.old) → ⊥) × (e.tables.nodes.now ≡ nodes.old) × (e.tables.lists.now ≡ lists.old)
    ] }
{
    let n = nodes.len();
    if n != lists.len() || n < 1 || n > LARGEST_STORE {
        return Err(Unfit {
            tables: Lent { nodes, lists },
        });
    }
    Ok(empty_over(nodes, lists))
}

fn empty_over<'a>(nodes: &'a mut [Node], lists: &'a mut [ListRecord]) -> Quicklist<'a>
    requires { Fit (length nodes.old) (length lists.old) }
    ensures room { room_of result ≡ length nodes.old }
    ensures none { lists_in result ≡ [] }
{
    Quicklist {
        tables: Tables::cleared(nodes, lists),
    }
}

impl<'a> ListEnds for Quicklist<'a> {
    ghost room = { room_of };

    ghost lists = { lists_in };

    ghost laws = { quicklist_laws };

    fn capacity(&self) -> usize {
        self.tables.nodes.len()
    }

    #[tactic(auto, using(crate::proofs::Stores::held_is))]
    fn held(&self) -> usize {
        self.tables.held
    }

    fn len(&self, key: &[u8]) -> usize {
        self.elements_of(key)
    }

    fn value_at(&self, key: &[u8], index: usize, out: &mut [u8; LONGEST_VALUE]) -> Option<usize> {
        if index >= self.len(key) {
            return None;
        }
        Some(self.copy_element(key, index, out))
    }

    #[tactic(auto, using(crate::proofs::Stores::room_more))]
    fn push(&mut self, side: Side, key: &[u8], value: &[u8]) -> Result<(), Refusal>
        ensures kept { room_of self.new ≡ room_of self.old }
        ensures pushed { Pushed (room_of self.old) (lists_in self.old) (lists_in self.new) side key.now value.now result }
        ensures nodes { NodesPushed (nodes_for self.old) (nodes_for self.new) side key.now value.now result }
    {
        // Kept: room is asked for here and not by the store's question, since the checker takes a generic call inside this block for a recursion of the block.
        let (name, value) = ask_rows(key, value)?;
        if self.held() == self.capacity() {
            return Err(Refusal::Full);
        }
        self.add_end(side, name, &ShortValue::from(&value));
        Ok(())
    }

    fn pop(&mut self, side: Side, key: &[u8], out: &mut [u8; LONGEST_VALUE]) -> Option<usize>
        ensures kept { room_of self.new ≡ room_of self.old }
        ensures popped { Popped (lists_in self.old) (lists_in self.new) side key.now out.old out.new result }
        ensures nodes { NodesPopped (nodes_for self.old) (nodes_for self.new) side key.now result }
    {
        let end = side.index_in(self.len(key))?;
        let size = self.copy_element(key, end, out);
        self.cut_end(side, key, end);
        Some(size)
    }

    fn key_at(&self, rank: usize, out: &mut [u8; LONGEST_KEY]) -> Option<usize> {
        self.copy_ranked(rank, out)
    }
}

impl<'a> WholeLists for Quicklist<'a> {
    fn set(&mut self, key: &[u8], index: usize, value: &[u8]) -> Result<(), Refusal>
        ensures kept { room_of self.new ≡ room_of self.old }
        ensures was_set { WasSet (lists_in self.old) (lists_in self.new) key.now index value.now result }
        ensures nodes { NodesSet (nodes_for self.old) (nodes_for self.new) key.now index value.now result }
    {
        let (_, value) = ask_set(&*self, key, index, value)?;
        self.write_element(key, index, &ShortValue::from(&value));
        Ok(())
    }

    fn insert(&mut self, key: &[u8], index: usize, value: &[u8]) -> Result<(), Refusal>
        ensures kept { room_of self.new ≡ room_of self.old }
        ensures inserted { Inserted (room_of self.old) (lists_in self.old) (lists_in self.new) key.now index value.now result }
        ensures nodes { NodesInserted (nodes_for self.old) (nodes_for self.new) key.now index value.now result }
    {
        let (name, value) = ask_insert(&*self, key, index, value)?;
        self.add_element(name, index, &ShortValue::from(&value));
        Ok(())
    }

    fn remove(&mut self, key: &[u8], index: usize) -> Result<(), Refusal>
        ensures kept { room_of self.new ≡ room_of self.old }
        ensures removed { Removed (lists_in self.old) (lists_in self.new) key.now index result }
        ensures nodes { NodesRemoved (nodes_for self.old) (nodes_for self.new) key.now index result }
    {
        ask_remove(&*self, key, index)?;
        self.cut_element(key, index);
        Ok(())
    }
}
