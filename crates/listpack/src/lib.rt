// Listpacks of at most 508 bytes, read and changed in place.
#![tactic(auto)]

ghost use Rattle.listpack.specs.Laws.{PackLaws};

mod bytes;
mod pack;

pub use pack::{Listpack, MOST_BYTES, PackError};

// The laws of listpacks stand in a contract here, so that none can be dropped.
fn packs_are_lawful()
    ensures { PackLaws }
{}
