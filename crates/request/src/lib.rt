// Reads the first request of received bytes, and hands out its arguments as parts of them.
#![tactic(auto)]

ghost use Rattle.std.specs.Prelude.{IfOk};
ghost use Rattle.request.specs.Answers.{finding, Correct, Kept};
ghost use Rattle.request.specs.Laws.{FindingLaws, WorkedCases};

mod reader;
mod steps;
mod taken;

use reader::Reader;
pub use taken::{MOST_ARGUMENTS, Part, Request};
pub use wire::ReadError;

// The first request of the bytes; that more are needed; or the place of the first byte that cannot stand where it stands.
pub fn read<'a>(bytes: &'a [u8]) -> Result<Request<'a>, ReadError>
    ensures correct { Correct bytes.now (finding result) }
    ensures kept { IfOk result (Kept bytes.now) }
{
    let mut reader = Reader { bytes, at: 0 };
    reader.request().map_err(|stop| stop.seen_from(bytes))
}

// What follows from the contract of `read` stands in contracts here, so that none of it can be dropped.
fn findings_are_lawful()
    ensures { FindingLaws }
{}

fn cases_are_worked()
    ensures { WorkedCases }
{}
