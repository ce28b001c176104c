// Changes of one list with all that goes with them: its record, the counts and the free records.
ghost use Rattle.std.specs.Prelude.{◌≡◌, ℕ, ◌+◌, ◌-◌, ◌<◌, ◌≤◌, [], ◌∷◌, length, ◌≢◌};
ghost use Rattle.order.specs.Keys.{key_in};
ghost use Rattle.store.specs.Limits.{longest_value, largest_store};
ghost use Rattle.listpack.specs.Packs.{takes, swaps};
ghost use Rattle.nodes.specs.Nodes.{flat, pushed, added, cut, changed};
ghost use Rattle.records.specs.Records.{key_at};
ghost use Rattle.quicklist.specs.Tables.{room, nodes_of, Whole, Enough, Downward, Threaded, Written, Rebooked};

use crate::packs::ShortValue;
use crate::table::{Node, Tables};
use order::KeyRow;
use records::ListRecord;
use store::Side;

// Kept: this and the next are two loops of one statement each; one function over both kinds of row would need a trait or a closure for that statement, and says no more.
// Lets each node lead to the one before it.
fn thread_nodes(nodes: &mut [Node])
    requires { length nodes.old ≤ largest_store }
    ensures { (k : ℕ) → k < length nodes.new → Downward nodes.new k }
{
    for (i, node) in nodes.iter_mut().enumerate() {
        node.next = i as u16;
    }
}

// Frees each list record, and lets it lead to the one before it.
fn thread_lists(lists: &mut [ListRecord])
    requires { length lists.old ≤ largest_store }
    ensures { (k : ℕ) → k < length lists.new → Threaded lists.new k }
{
    for (i, list) in lists.iter_mut().enumerate() {
        *list = ListRecord {
            next: i as u16,
            ..ListRecord::blank()
        };
    }
}

// The number of the list record at e.
fn number_at(e: usize) -> u16
    requires { e < largest_store }
    ensures { result ≡ e + 1 }
{
    e as u16 + 1
}

// Kept: `Whole` is asked of the five changes below and is no fact of `Tables`: four of them write the nodes first and the counts after, and in between it does not hold; the fifth is made of these.
impl<'a> Tables<'a> {
    // The tables with all nodes and all list records free.
    pub(crate) fn cleared(nodes: &'a mut [Node], lists: &'a mut [ListRecord]) -> Tables<'a>
        requires same { length lists.old ≡ length nodes.old }
        requires some { 1 ≤ length nodes.old }
        requires few { length nodes.old ≤ largest_store }
        ensures whole { Whole result }
        ensures kept { room result ≡ length nodes.old }
        ensures none { result.held ≡ 0 }
    {
        thread_nodes(nodes);
        thread_lists(lists);
        let free_node = nodes.len() as u16;
        let free_list = lists.len() as u16;
        Tables {
            nodes,
            lists,
            free_node,
            free_list,
            held: 0,
        }
    }

    // Writes the key, the count and the link of a list record.
    fn write_record(&mut self, e: usize, name: KeyRow, count: u16, next: u16)
        requires { e < length self.old.lists.now }
        ensures { Written self.old self.new e (key_in name) count next }
    {
        self.lists[e] = ListRecord {
            name,
            count,
            next,
            ..self.lists[e]
        };
    }

    // Kept: that a list has one value more is written here and in `add_before`; a function for these three lines would have to say all fields of the record again.
    // Adds a value at a side of a list that has one.
    pub(crate) fn add_end(&mut self, e: usize, side: Side, value: &ShortValue<'_>)
        requires whole { Whole self.old }
        requires which { e < room self.old }
        requires used { 0 < length (nodes_of self.old e) }
        requires more { self.old.held < room self.old }
        ensures { Rebooked self.old self.new e (key_at self.old.lists.now e) (pushed takes side (nodes_of self.old e) value.now.bytes.now) }
    {
        self.push_in(e, side, value);
        let it = self.lists[e];
        self.write_record(e, it.name, it.count + 1, it.next);
        self.held += 1;
    }

    // Adds a value before the one at an index of a list that has one, or at its end.
    pub(crate) fn add_before(&mut self, e: usize, index: usize, value: &ShortValue<'_>)
        requires whole { Whole self.old }
        requires which { e < room self.old }
        requires used { 0 < length (nodes_of self.old e) }
        requires more { self.old.held < room self.old }
        requires there { index ≤ length (flat (nodes_of self.old e)) }
        ensures { Rebooked self.old self.new e (key_at self.old.lists.now e) (added takes (nodes_of self.old e) index value.now.bytes.now) }
    {
        self.insert_in(e, index, value);
        let it = self.lists[e];
        self.write_record(e, it.name, it.count + 1, it.next);
        self.held += 1;
    }

    // Makes a list of the one value, in the first free record.
    pub(crate) fn add_new(&mut self, name: KeyRow, value: &ShortValue<'_>)
        requires whole { Whole self.old }
        requires more { self.old.held < room self.old }
        requires absent { (i : ℕ) → i < room self.old → 0 < length (nodes_of self.old i) → key_at self.old.lists.now i ≢ key_in name }
        ensures place { self.old.free_list - 1 < room self.old }
        ensures free { length (nodes_of self.old (self.old.free_list - 1)) ≡ 0 }
        ensures booked { Rebooked self.old self.new (self.old.free_list - 1) (key_in name) ((value.now.bytes.now ∷ []) ∷ []) }
    {
        let e = self.free_list as usize - 1;
        self.push_in(e, Side::Right, value);
        let it = self.lists[e];
        self.write_record(e, name, 1, it.next);
        self.free_list = it.next;
        self.held += 1;
    }

    // Takes the value at an index out of a list. A list left empty frees its record.
    pub(crate) fn take_out(&mut self, e: usize, index: usize)
        requires whole { Whole self.old }
        requires which { e < room self.old }
        requires there { index < length (flat (nodes_of self.old e)) }
        ensures { Rebooked self.old self.new e (key_at self.old.lists.now e) (cut (nodes_of self.old e) index) }
    {
        self.remove_in(e, index);
        let it = self.lists[e];
        if it.first == 0 {
            let free = self.free_list;
            self.write_record(e, it.name, it.count - 1, free);
            self.free_list = number_at(e);
            self.held -= 1;
            return;
        }
        self.write_record(e, it.name, it.count - 1, it.next);
        self.held -= 1;
    }

    // Writes a value over the one at an index of a list: in its node, if that takes it, else by a removal and an insert.
    pub(crate) fn write_over(&mut self, e: usize, index: usize, value: &ShortValue<'_>)
        requires whole { Whole self.old }
        requires which { e < room self.old }
        requires there { index < length (flat (nodes_of self.old e)) }
        ensures { Rebooked self.old self.new e (key_at self.old.lists.now e) (changed takes swaps (nodes_of self.old e) index value.now.bytes.now) }
    {
        if self.replace_in(e, index, value) {
            return;
        }
        self.take_out(e, index);
        self.add_before(e, index, value);
    }
}

// Why a push never runs out of nodes or records before the store is full: each listed node and each list holds an element.
fn tables_suffice()
    ensures { Enough }
{}
