// Numbers that lead through a table: the laws of doubly linked lists that share one table with a chain of free places. Definitions and laws, with no code that runs.
#![tactic(auto)]

ghost use Rattle.links.specs.Links.{LinkLaws};

// The laws of links stand in a contract here, so that none can be dropped.
fn links_are_lawful()
    ensures { LinkLaws }
{}
