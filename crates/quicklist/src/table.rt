// The tables of a quicklist.
ghost use Rattle.std.specs.Prelude.{◌≡◌, length};
ghost use Rattle.links.specs.Links.{Sound};
ghost use Rattle.quicklist.specs.Chains.{links};
ghost use Rattle.quicklist.specs.LinkProps.{Sound-prop};

use listpack::Listpack;
use records::ListRecord;

// A node: the numbers of the nodes after and before it, 0 at an end, and its values. Of a free node `next` is the next free one.
// Kept: numbers into a table, and 0 for none, in place of boxes and options: nodes lie in a table that the host lends, numbered from 1, and zero ends a chain by the project's rules.
#[derive(Clone, Copy)]
pub struct Node {
    pub(crate) next: u16,
    pub(crate) prev: u16,
    pub(crate) pack: Listpack,
}

// Both tables, of one length, the first free node, the first free list record, and how many elements there are. Each node is in one list or free, and led
// through from both ends.
// Kept: two tables beside each other, since the host lends them so.
#[derive(Drop)]
pub(crate) struct Tables<'a> {
    pub(crate) nodes: &'a mut [Node],
    pub(crate) lists: &'a mut [ListRecord],
    pub(crate) free_node: u16,
    pub(crate) free_list: u16,
    pub(crate) held: usize,
    ghost same: { length lists.now ≡ length nodes.now },
    ghost linked: { Sound (length nodes.now) (links nodes.now lists.now free_node) } by { Sound-prop (length nodes.now) (links nodes.now lists.now free_node) },
}
