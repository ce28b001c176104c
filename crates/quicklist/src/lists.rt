// One list by its nodes: values are added, written over and taken out.
ghost use Rattle.std.specs.Prelude.{◌≡◌, ℕ, ◌<◌, ◌≤◌, List, [], ◌∷◌, ◌++◌, map, length, slice_set, if◌then◌else◌, IsTrue, ◌↔◌};
ghost use Rattle.std.specs.List.{remove};
ghost use Rattle.store.specs.Limits.{longest_value};
ghost use Rattle.links.specs.Links.{tally, last_or, Sound};
ghost use Rattle.listpack.specs.Packs.{takes, swaps};
ghost use Rattle.nodes.specs.Nodes.{flat, put_in, pushed, unless_empty, cut, added};
ghost use Rattle.quicklist.specs.Tables.{room, links_of, numbers, nodes_of, values_at, count_at, end_node, end_place, node_before, Located, Relisted, Replaced};

use crate::packs::{ShortValue, divide};
use crate::table::Tables;
use listpack::Listpack;
use store::Side;

// Kept: the number of a list goes with that of a node, or with an index, through these methods, and facts on the tables tie them (`e < room`, `0 < tally n ..`): a struct of
// both would hold a number of a table that it does not hold, and be taken apart at each call.
impl<'a> Tables<'a> {
    // Adds a value before the one at a spot. A node that does not take it is cut there.
    fn put_in(&mut self, e: usize, spot: Spot, value: &ShortValue<'_>)
        requires which { e < room self.old }
        requires more { 0 < self.old.free_node }
        requires there { 0 < tally spot.node (numbers self.old e) }
        requires place { spot.place ≤ length (values_at self.old.nodes.now spot.node) }
        ensures nodes { (ls rs : List ℕ) → numbers self.old e ≡ ls ++ spot.node ∷ rs
            → Relisted self.old self.new e (map (values_at self.old.nodes.now) ls
            ++ (put_in takes (values_at self.old.nodes.now spot.node) spot.place value.now.bytes.now ++ map (values_at self.old.nodes.now) rs)) }
    {
        let nodes = &mut *self.nodes;
        let pack = &mut nodes[spot.node as usize - 1].pack;
        if pack.insert(spot.place, value.bytes).is_ok() {
            return;
        }
        let right = divide(pack, spot.place, value);
        self.open(e, spot.node, right);
    }

    // Puts a node with the one value into a list, after its node p or before all where p is 0.
    fn open_with(&mut self, e: usize, p: u16, value: &ShortValue<'_>)
        requires which { e < room self.old }
        requires more { 0 < self.old.free_node }
        requires there { 0 < tally p (0 ∷ numbers self.old e) }
        ensures nodes { (ls rs : List ℕ) → numbers self.old e ≡ ls ++ rs → p ≡ last_or 0 ls
            → Relisted self.old self.new e (map (values_at self.old.nodes.now) ls ++ (value.now.bytes.now ∷ []) ∷ map (values_at self.old.nodes.now) rs) }
    {
        let mut pack = Listpack::empty();
        pack.prepend(value.bytes).unwrap();
        self.open(e, p, pack);
    }

    // Kept: 0 for none, as the record has it.
    // The number of the node at a side of a list, 0 where it has none.
    fn end_of(&self, e: usize, side: Side) -> u16
        requires { e < length self.now.lists.now }
        ensures { result ≡ end_node side self.now e }
    {
        match side {
            Side::Left => self.lists[e].first,
            Side::Right => self.lists[e].last,
        }
    }

    // How many values node n holds.
    fn count_in(&self, n: u16) -> usize
        requires some { 0 < n }
        requires within { n ≤ room self.now }
        ensures { result ≡ length (values_at self.now.nodes.now n) }
    {
        let nodes = &*self.nodes;
        nodes[n as usize - 1].pack.count()
    }

    // Whether node n holds no value.
    fn holds_nothing(&self, n: u16) -> bool
        requires some { 0 < n }
        requires within { n ≤ room self.now }
        ensures { IsTrue result ↔ (length (values_at self.now.nodes.now n) ≡ 0) }
    {
        self.count_in(n) == 0
    }

    // Where a value goes that is added at a side of node n.
    fn end_place(&self, side: Side, n: u16) -> usize
        requires some { 0 < n }
        requires within { n ≤ room self.now }
        ensures { result ≡ end_place side (values_at self.now.nodes.now n) }
    {
        match side {
            Side::Left => 0,
            Side::Right => self.count_in(n),
        }
    }

    // Adds a value at a side of a list: in the node there, if it fits, else in a new node.
    pub(crate) fn push_in(&mut self, e: usize, side: Side, value: &ShortValue<'_>)
        requires which { e < room self.old }
        requires more { 0 < self.old.free_node }
        ensures nodes { Relisted self.old self.new e (pushed takes side (nodes_of self.old e) value.now.bytes.now) }
    {
        let n = self.end_of(e, side);
        if n == 0 {
            self.open_with(e, 0, value);
            return;
        }
        let j = self.end_place(side, n);
        let nodes = &mut *self.nodes;
        let pack = &mut nodes[n as usize - 1].pack;
        if pack.insert(j, value.bytes).is_ok() {
            return;
        }
        let p = node_before(side, n);
        self.open_with(e, p, value);
    }

    // Kept: a bool here and in `replace_in`, since only lack of room is left as a reason, and the caller then takes another way.
    // Writes a value over the one at a spot, if it fits.
    fn write_in(&mut self, e: usize, spot: Spot, value: &ShortValue<'_>) -> bool
        requires which { e < room self.old }
        requires there { 0 < tally spot.node (numbers self.old e) }
        requires place { spot.place < length (values_at self.old.nodes.now spot.node) }
        ensures told { result ≡ swaps (values_at self.old.nodes.now spot.node) spot.place value.now.bytes.now }
        ensures nodes { (ls rs : List ℕ) → numbers self.old e ≡ ls ++ spot.node ∷ rs
            → Relisted self.old self.new e (map (values_at self.old.nodes.now) ls
            ++ (if result then slice_set (values_at self.old.nodes.now spot.node) spot.place value.now.bytes.now else values_at self.old.nodes.now spot.node) ∷ map (values_at self.old.nodes.now) rs) }
    {
        let nodes = &mut *self.nodes;
        nodes[spot.node as usize - 1]
            .pack
            .replace(spot.place, value.bytes)
            .is_ok()
    }

    // Takes the value at a spot out. A node left empty goes out of the list.
    fn cut_in(&mut self, e: usize, spot: Spot)
        requires which { e < room self.old }
        requires there { 0 < tally spot.node (numbers self.old e) }
        requires place { spot.place < length (values_at self.old.nodes.now spot.node) }
        ensures nodes { (ls rs : List ℕ) → numbers self.old e ≡ ls ++ spot.node ∷ rs
            → Relisted self.old self.new e (map (values_at self.old.nodes.now) ls
            ++ (unless_empty (remove (values_at self.old.nodes.now spot.node) spot.place) ++ map (values_at self.old.nodes.now) rs)) }
    {
        let nodes = &mut *self.nodes;
        nodes[spot.node as usize - 1]
            .pack
            .remove(spot.place)
            .unwrap();
        if self.holds_nothing(spot.node) {
            self.close(e, spot.node);
        }
    }

    // The node of the value at an index of a list, and the value's place in it. The last node is tried first, so that both ends are near.
    pub(crate) fn locate(&self, e: usize, index: usize) -> Spot
        requires which { e < room self.now }
        requires counted { count_at self.now.lists.now e ≡ length (flat (nodes_of self.now e)) }
        requires there { index < length (flat (nodes_of self.now e)) }
        ensures { Located self.now e index result.node result.place }
    {
        let last = self.lists[e].last;
        let before = self.lists[e].count as usize - self.count_in(last);
        if index >= before {
            return Spot {
                node: last,
                place: index - before,
            };
        }
        self.walk_to(e, index)
    }

    // Kept: numbers of nodes are followed by hand; an iterator over the nodes of a list would carry the same two fields, and its steps the same facts.
    // The same from the first node on. Whole nodes are passed over by their counts.
    fn walk_to(&self, e: usize, index: usize) -> Spot
        requires which { e < room self.now }
        requires there { index < length (flat (nodes_of self.now e)) }
        ensures { Located self.now e index result.node result.place }
    {
        let mut node = self.lists[e].first;
        let mut place = index;
        for _ in 0..self.nodes.len() {
            let here = self.count_in(node);
            if place < here {
                return Spot { node, place };
            }
            place -= here;
            node = self.nodes[node as usize - 1].next;
        }
        unreachable!()
    }

    // Adds a value before the one at an index of a list, or at the end of its last node.
    pub(crate) fn insert_in(&mut self, e: usize, index: usize, value: &ShortValue<'_>)
        requires which { e < room self.old }
        requires more { 0 < self.old.free_node }
        requires used { 0 < length (nodes_of self.old e) }
        requires counted { count_at self.old.lists.now e ≡ length (flat (nodes_of self.old e)) }
        requires there { index ≤ length (flat (nodes_of self.old e)) }
        ensures nodes { Relisted self.old self.new e (added takes (nodes_of self.old e) index value.now.bytes.now) }
    {
        if index < self.lists[e].count as usize {
            let spot = self.locate(e, index);
            self.put_in(e, spot, value);
            return;
        }
        let node = self.lists[e].last;
        let place = self.count_in(node);
        self.put_in(e, Spot { node, place }, value);
    }

    // Takes the value at an index out of a list.
    pub(crate) fn remove_in(&mut self, e: usize, index: usize)
        requires which { e < room self.old }
        requires counted { count_at self.old.lists.now e ≡ length (flat (nodes_of self.old e)) }
        requires there { index < length (flat (nodes_of self.old e)) }
        ensures nodes { Relisted self.old self.new e (cut (nodes_of self.old e) index) }
    {
        let spot = self.locate(e, index);
        self.cut_in(e, spot);
    }

    // Writes a value over the one at an index of a list, if its node takes it.
    pub(crate) fn replace_in(&mut self, e: usize, index: usize, value: &ShortValue<'_>) -> bool
        requires which { e < room self.old }
        requires counted { count_at self.old.lists.now e ≡ length (flat (nodes_of self.old e)) }
        requires there { index < length (flat (nodes_of self.old e)) }
        ensures nodes { Replaced self.old self.new e index value.now.bytes.now result }
    {
        let spot = self.locate(e, index);
        self.write_in(e, spot, value)
    }
}

// Where a value lies: the number of its node, and its place in the node.
#[derive(Clone, Copy)]
pub(crate) struct Spot {
    pub(crate) node: u16,
    pub(crate) place: usize,
}

// Kept: 0 for the front, as the tables have it.
// The node after which one goes that is put beside the end node n of a side, outside of it; 0 for the front.
fn node_before(side: Side, n: u16) -> u16
    ensures { result ≡ node_before side n }
{
    match side {
        Side::Left => 0,
        Side::Right => n,
    }
}
