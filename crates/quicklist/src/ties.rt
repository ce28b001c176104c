// The links between nodes, each written in one place.
ghost use Rattle.std.specs.Prelude.{◌≡◌, ◌≤◌, length};
ghost use Rattle.quicklist.specs.Chains.{Ahead, Behind, Joined};

use crate::table::Node;

impl Node {
    // Lets it lead to q.
    fn lead_to(&mut self, q: u16)
        ensures next { self.new.next ≡ q }
        ensures prev { self.new.prev ≡ self.old.prev }
        ensures pack { self.new.pack ≡ self.old.pack }
    {
        self.next = q;
    }

    // Lets it lead back to p.
    fn lead_back_to(&mut self, p: u16)
        ensures prev { self.new.prev ≡ p }
        ensures next { self.new.next ≡ self.old.next }
        ensures pack { self.new.pack ≡ self.old.pack }
    {
        self.prev = p;
    }
}

// Kept: this and `trail` mirror each other in two fields of a node and of `Ends`; one function would be told by a side which of them it means, at each of four places.
// Lets p lead to q, and tells the list's first node then.
fn lead(nodes: &mut [Node], first: u16, p: u16, q: u16) -> u16
    requires { p ≤ length nodes.old }
    ensures { Ahead nodes.old first nodes.new result p q }
{
    if p == 0 {
        return q;
    }
    nodes[p as usize - 1].lead_to(q);
    first
}

// Lets q lead back to p, and tells the list's last node then.
fn trail(nodes: &mut [Node], last: u16, q: u16, p: u16) -> u16
    requires { q ≤ length nodes.old }
    ensures { Behind nodes.old last nodes.new result q p }
{
    if q == 0 {
        return p;
    }
    nodes[q as usize - 1].lead_back_to(p);
    last
}

// The first and last node of a list.
#[derive(Clone, Copy)]
pub(crate) struct Ends {
    pub(crate) first: u16,
    pub(crate) last: u16,
}

// Lets q follow p, where 0 stands for the head and the end of the list, and tells the list's ends then.
pub(crate) fn tie(nodes: &mut [Node], ends: Ends, p: u16, q: u16) -> Ends
    requires within { p ≤ length nodes.old }
    requires inside { q ≤ length nodes.old }
    ensures { Joined nodes.old ends.first ends.last nodes.new result.first result.last p q }
{
    let first = lead(nodes, ends.first, p, q);
    let last = trail(nodes, ends.last, q, p);
    Ends { first, last }
}
