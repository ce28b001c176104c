// The nodes of a list: one is put in, one is taken out.
ghost use Rattle.std.specs.Prelude.{◌≡◌, ℕ, ◌<◌, ◌≤◌, List, ◌∷◌, ◌++◌, map, length};
ghost use Rattle.links.specs.Links.{from, tally, last_or};
ghost use Rattle.listpack.specs.Packs.{values_in};
ghost use Rattle.quicklist.specs.Chains.{next_in, prev_in, SplicedIn, SplicedOut};
ghost use Rattle.quicklist.specs.Tables.{room, numbers, values_at, Relisted};

use crate::table::{Node, Tables};
use crate::ties::{Ends, tie};
use listpack::Listpack;
use records::ListRecord;

// The number after node p of a list, its first node's where p is 0.
fn after(nodes: &[Node], first: u16, p: u16) -> u16
    requires { p ≤ length nodes.now }
    ensures { result ≡ from first (next_in nodes.now) p }
{
    if p == 0 {
        return first;
    }
    nodes[p as usize - 1].next
}

// Kept: two of a record's five fields are handed on as `Ends`, here and in `splice_out`, since a tie reads and changes these alone.
// Fills the first free node and puts it after node p of the list with this record, or before all where p is 0.
fn splice_in(nodes: &mut [Node], list: &mut ListRecord, free: &mut u16, p: u16, pack: Listpack)
    requires some { 0 < free.old }
    requires there { free.old ≤ length nodes.old }
    requires before { p ≤ length nodes.old }
    requires behind { from list.old.first (next_in nodes.old) p ≤ length nodes.old }
    ensures { SplicedIn nodes.old list.old free.old nodes.new list.new free.new p pack }
{
    let q = after(nodes, list.first, p);
    let n = *free;
    let node = &mut nodes[n as usize - 1];
    node.pack = pack;
    *free = node.next;
    let halfway = tie(
        nodes,
        Ends {
            first: list.first,
            last: list.last,
        },
        p,
        n,
    );
    let ends = tie(nodes, halfway, n, q);
    list.first = ends.first;
    list.last = ends.last;
}

// Takes node n out of the list with this record; it is the first free one then.
#[tactic(auto, using(crate::proofs::Writes::spliced_out))]
fn splice_out(nodes: &mut [Node], list: &mut ListRecord, free: &mut u16, n: u16)
    requires some { 0 < n }
    requires there { n ≤ length nodes.old }
    requires before { prev_in nodes.old n ≤ length nodes.old }
    requires behind { next_in nodes.old n ≤ length nodes.old }
    ensures { SplicedOut nodes.old list.old free.old nodes.new list.new free.new n }
{
    let slot = n as usize - 1;
    let prev = nodes[slot].prev;
    let next = nodes[slot].next;
    let ends = tie(
        nodes,
        Ends {
            first: list.first,
            last: list.last,
        },
        prev,
        next,
    );
    nodes[slot].next = *free;
    list.first = ends.first;
    list.last = ends.last;
    *free = n;
}

impl<'a> Tables<'a> {
    // Fills the first free node and puts it into a list after its node p, or before all where p is 0.
    pub(crate) fn open(&mut self, e: usize, p: u16, pack: Listpack)
        requires which { e < room self.old }
        requires more { 0 < self.old.free_node }
        requires there { 0 < tally p (0 ∷ numbers self.old e) }
        ensures nodes { (ls rs : List ℕ) → numbers self.old e ≡ ls ++ rs → p ≡ last_or 0 ls
            → Relisted self.old self.new e (map (values_at self.old.nodes.now) ls ++ values_in pack ∷ map (values_at self.old.nodes.now) rs) }
    {
        let nodes = &mut *self.nodes;
        let lists = &mut *self.lists;
        let free = &mut self.free_node;
        splice_in(nodes, &mut lists[e], free, p, pack);
    }

    // Takes a node out of a list; it is the first free one then.
    pub(crate) fn close(&mut self, e: usize, n: u16)
        requires which { e < room self.old }
        requires there { 0 < tally n (numbers self.old e) }
        ensures nodes { (ls rs : List ℕ) → numbers self.old e ≡ ls ++ n ∷ rs
            → Relisted self.old self.new e (map (values_at self.old.nodes.now) ls ++ map (values_at self.old.nodes.now) rs) }
    {
        let nodes = &mut *self.nodes;
        let lists = &mut *self.lists;
        let free = &mut self.free_node;
        splice_out(nodes, &mut lists[e], free, n);
    }
}
