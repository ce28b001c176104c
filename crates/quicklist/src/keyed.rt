// The store by its lists, and by their nodes.
ghost use Rattle.std.specs.Prelude.{◌≡◌, ◌<◌, ◌≤◌, false, length, slice_set, Some, Decides};
ghost use Rattle.std.specs.List.{insert, remove};
ghost use Rattle.order.specs.Keys.{key_in, longest_key};
ghost use Rattle.store.specs.Limits.{longest_value};
ghost use Rattle.store.specs.Lists.{at, put, keys_of};
ghost use Rattle.store.specs.Lists.{held as elements};
ghost use Rattle.store.specs.Answers.{joined, place, over, Copied};
ghost use Rattle.listpack.specs.Packs.{takes, swaps};
ghost use Rattle.nodes.specs.Nodes.{pushed, popped, added, cut, changed};
ghost use Rattle.quicklist.specs.Tables.{Whole};
ghost use Rattle.quicklist.specs.Props.{Whole-prop};
ghost use Rattle.quicklist.specs.Store.{Placed};
ghost use Rattle.quicklist.specs.Changes.{Recut};

use crate::packs::ShortValue;
use crate::table::Tables;
use order::KeyRow;
use records::{find, ranked};
use store::{LONGEST_KEY, LONGEST_VALUE, Side};

// A store over both tables.
#[derive(Drop)]
pub struct Quicklist<'a> {
    pub(crate) tables: Tables<'a>,
    ghost whole: { Whole tables } by { Whole-prop tables },
}

impl<'a> Quicklist<'a> {
    ghost use Rattle.quicklist.specs.Laws.{room_of, lists_in, nodes_for};

    // The place of the record of a key's list.
    fn place_of(&self, key: &[u8]) -> Option<usize>
        ensures { Placed self.now.tables key.now result }
    {
        let lists = &*self.tables.lists;
        find(lists, key)
    }

    // How many elements the list of a key has.
    pub(crate) fn elements_of(&self, key: &[u8]) -> usize
        ensures { result ≡ length (at (lists_in self.now) key.now) }
    {
        let Some(e) = self.place_of(key) else {
            return 0;
        };
        self.tables.lists[e].count as usize
    }

    // Copies an element of a key's list out.
    pub(crate) fn copy_element(
        &self,
        key: &[u8],
        index: usize,
        out: &mut [u8; LONGEST_VALUE],
    ) -> usize
        requires { index < length (at (lists_in self.now) key.now) }
        ensures { Copied longest_value (at (lists_in self.now) key.now) index out.old out.new (Some result) }
    {
        let e = self.place_of(key).unwrap();
        let spot = self.tables.locate(e, index);
        let nodes = &*self.tables.nodes;
        nodes[spot.node as usize - 1]
            .pack
            .value_at(spot.place, out)
            .unwrap()
    }

    // Copies the key at a rank out.
    pub(crate) fn copy_ranked(&self, rank: usize, out: &mut [u8; LONGEST_KEY]) -> Option<usize>
        ensures { Copied longest_key (keys_of (lists_in self.now)) rank out.old out.new result }
    {
        let lists = &*self.tables.lists;
        let e = ranked(lists, rank)?;
        Some(lists[e].name.copy_to(out))
    }

    // Adds an element at a side of a key's list.
    #[tactic(auto, using(crate::proofs::Stores::counted))]
    pub(crate) fn add_end(&mut self, side: Side, name: KeyRow, value: &ShortValue<'_>)
        requires room { elements (lists_in self.old) < room_of self.old }
        ensures kept { room_of self.new ≡ room_of self.old }
        ensures lists { lists_in self.new ≡ put (lists_in self.old) (key_in name) (joined side (at (lists_in self.old) (key_in name)) value.now.bytes.now) }
        ensures nodes { Recut (nodes_for self.old) (nodes_for self.new) (key_in name) (pushed takes side (nodes_for self.old (key_in name)) value.now.bytes.now) }
    {
        let Some(e) = self.place_of(name.as_bytes()) else {
            self.tables.add_new(name, value);
            return;
        };
        self.tables.add_end(e, side, value);
    }

    // Writes a value over an element of a key's list.
    pub(crate) fn write_element(&mut self, key: &[u8], index: usize, value: &ShortValue<'_>)
        requires within { index < length (at (lists_in self.old) key.now) }
        ensures kept { room_of self.new ≡ room_of self.old }
        ensures lists { lists_in self.new ≡ put (lists_in self.old) key.now (slice_set (at (lists_in self.old) key.now) index value.now.bytes.now) }
        ensures nodes { Recut (nodes_for self.old) (nodes_for self.new) key.now (changed takes swaps (nodes_for self.old key.now) index value.now.bytes.now) }
    {
        let e = self.place_of(key).unwrap();
        self.tables.write_over(e, index, value);
    }

    // Adds an element before one of a key's list, or at its end.
    #[tactic(auto, using(crate::proofs::Stores::counted))]
    pub(crate) fn add_element(&mut self, name: KeyRow, index: usize, value: &ShortValue<'_>)
        requires room { elements (lists_in self.old) < room_of self.old }
        requires within { index ≤ length (at (lists_in self.old) (key_in name)) }
        ensures kept { room_of self.new ≡ room_of self.old }
        ensures lists { lists_in self.new ≡ put (lists_in self.old) (key_in name) (insert (at (lists_in self.old) (key_in name)) index value.now.bytes.now) }
        ensures nodes { Recut (nodes_for self.old) (nodes_for self.new) (key_in name) (added takes (nodes_for self.old (key_in name)) index value.now.bytes.now) }
    {
        let Some(e) = self.place_of(name.as_bytes()) else {
            self.tables.add_new(name, value);
            return;
        };
        self.tables.add_before(e, index, value);
    }

    // Takes an element of a key's list out.
    pub(crate) fn cut_element(&mut self, key: &[u8], index: usize)
        requires { index < length (at (lists_in self.old) key.now) }
        ensures kept { room_of self.new ≡ room_of self.old }
        ensures lists { lists_in self.new ≡ put (lists_in self.old) key.now (remove (at (lists_in self.old) key.now) index) }
        ensures nodes { Recut (nodes_for self.old) (nodes_for self.new) key.now (cut (nodes_for self.old key.now) index) }
    {
        let e = self.place_of(key).unwrap();
        self.tables.take_out(e, index);
    }

    // Takes the element on a side of a key's list out.
    pub(crate) fn cut_end(&mut self, side: Side, key: &[u8], end: usize)
        requires some { 0 < length (at (lists_in self.old) key.now) }
        requires at_end { end ≡ place side (length (at (lists_in self.old) key.now)) }
        ensures kept { room_of self.new ≡ room_of self.old }
        ensures lists { lists_in self.new ≡ put (lists_in self.old) key.now (remove (at (lists_in self.old) key.now) (place side (length (at (lists_in self.old) key.now)))) }
        ensures nodes { Recut (nodes_for self.old) (nodes_for self.new) key.now (popped side (nodes_for self.old key.now)) }
    {
        self.cut_element(key, end);
    }
}
