// Lists cut into nodes: what a change of a list makes of its nodes, and which lists the records of a table show whose nodes they are. Definitions and laws, with no code that runs: stores
// that keep their lists in nodes are proved against them.
#![tactic(auto)]

ghost use Rattle.nodes.specs.Nodes.{NodeLaws};
ghost use Rattle.nodes.specs.Books.{BookLaws};

// The laws of nodes and of records stand in contracts here, so that none can be dropped.
fn nodes_are_lawful()
    ensures { NodeLaws }
{}

fn books_are_lawful()
    ensures { BookLaws }
{}
