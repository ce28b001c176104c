// The reply reader: the first reply of some bytes, as parts of them, with no allocation.
#![tactic(auto)]

ghost use Rattle.std.specs.Prelude.{◌≡◌, ℕ, ◌<◌, ◌⊎◌, List, IfSome, IfNone};
ghost use Rattle.std.specs.Iterator.{at_most};
ghost use Rattle.reply.specs.Replies.{deepest};
ghost use Rattle.reply_reader.specs.Reading.{Answers, AnswersTo, NoReply, Gives, Next};
ghost use Rattle.reply_reader.specs.Laws.{Settled, ReadsBack, ElementLaws};
ghost use Rattle.reply_reader.specs.Steps.{Finds};

mod lines;
mod values;

use values::read_value;
pub use wire::ReadError;

// How many arrays may lie inside one another, the outermost included.
pub const DEEPEST: usize = 4;

// Kept: an array has its bytes and its number, which stay told while `Elements`, made of them, moves past its elements.
// A reply value. Texts, errors and bulk strings are parts of the bytes that were read; of an array there are the bytes of its elements, and their number.
#[derive(Clone, Copy)]
pub enum Value<'a> {
    Text(&'a [u8]),
    Error(&'a [u8]),
    Integer(i64),
    Bulk(&'a [u8]),
    Nil,
    NilArray,
    Array(&'a [u8], usize),
}

// A value that was read, and the bytes behind it.
#[derive(Clone, Copy)]
struct Found<'a> {
    value: Value<'a>,
    rest: &'a [u8],
}

// The first reply of some bytes, and how many of them it has.
#[derive(Clone, Copy)]
pub struct FirstReply<'a> {
    pub value: Value<'a>,
    pub size: usize,
}

// Kept: the bytes and the number that are left, side by side, since the bytes alone do not tell where the elements end.
// The elements of an array that are still to be read.
#[derive(Clone, Copy)]
pub struct Elements<'a> {
    rest: &'a [u8],
    left: usize,
}

// These three stand in contracts here, so that they cannot be dropped. Of any bytes, at most one answer is right.
fn answers_are_settled()
    ensures { (s : List ℕ) → Settled s }
{}

// What is written is read back, whatever follows it.
fn replies_are_read_back()
    ensures { ReadsBack }
{}

// Elements are read in their order.
fn elements_are_in_order()
    ensures { ElementLaws }
{}

// The first reply of `bytes`, where `depth` arrays may lie inside one another.
fn read_within(bytes: &[u8], depth: usize) -> Result<FirstReply<'_>, ReadError>
    ensures { AnswersTo depth bytes.now result }
{
    let found = read_value(bytes, depth).map_err(|stop| stop.seen_from(bytes))?;
    Ok(FirstReply {
        value: found.value,
        size: bytes.len() - found.rest.len(),
    })
}

// The first reply of `bytes`; what follows it is not looked at.
pub fn read(bytes: &[u8]) -> Result<FirstReply<'_>, ReadError>
    ensures { Answers bytes.now result }
{
    read_within(bytes, DEEPEST)
}

// The element that comes next, if there is one.
fn element(elements: Elements<'_>) -> Option<Found<'_>>
    ensures there { IfSome result (λ _. 0 < elements.entry.left) }
    ensures found { IfSome result (Finds deepest elements.entry.rest.now) }
    ensures none { IfNone result ((elements.entry.left ≡ 0) ⊎ NoReply elements.entry.rest.now) }
{
    if elements.left == 0 {
        return None;
    }
    read_value(elements.rest, DEEPEST).ok()
}

impl<'a> Value<'a> {
    // The elements of an array; none of another value.
    pub fn elements(self) -> Elements<'a>
        ensures { Gives self.entry result }
    {
        match self {
            Value::Array(part, n) => Elements {
                rest: part,
                left: n,
            },
            _ => Elements { rest: &[], left: 0 },
        }
    }
}

impl<'a> Iterator for Elements<'a> {
    type Item = Value<'a>;

    ghost next_gives = { Next };

    ghost remaining = { λ e. at_most e.left };

    // The next element, if there is one.
    fn next(&mut self) -> Option<Value<'a>> {
        let found = element(*self)?;
        self.rest = found.rest;
        self.left -= 1;
        Some(found.value)
    }
}
