// Values, each behind its mark.
ghost use Rattle.std.specs.Prelude.{ℕ, suc, MatchResult, IfOk, IfErr};
ghost use Rattle.reply_reader.specs.Reading.{Says};
ghost use Rattle.wire.specs.Steps.{Stopped};
ghost use Rattle.reply_reader.specs.Steps.{Finds, Came, Texts, TextSaid};

use crate::lines::{head, integer_line, text_line};
use crate::{Found, Value};
use reply::{LONGEST_BULK, MOST_ELEMENTS};
use wire::{Bounds, Stop, filled, first};

// How many bytes a bulk string may have.
const BULK_SIZES: Bounds = Bounds {
    low: 0,
    high: LONGEST_BULK as u64,
};

// How many elements an array may have.
const ELEMENT_COUNTS: Bounds = Bounds {
    low: 0,
    high: MOST_ELEMENTS as u64,
};

// Kept: `?` and then the value, where `map` would serve: it is no plainer, as its closure would only call the one that is given.
// Reads a text, of which a value is made.
fn read_text<'a, F: Fn(&'a [u8]) -> Value<'a>>(
    bytes: &'a [u8],
    value_of: F,
) -> Result<Found<'a>, Stop>
    requires { F.IsAlwaysCallable value_of }
    ensures read { IfOk result (λ f. TextSaid (F.post value_of) bytes.now f) }
    ensures stopped { IfErr result (Stopped Texts bytes.now) }
{
    let (it, rest) = text_line(bytes)?;
    Ok(Found {
        value: value_of(it),
        rest,
    })
}

// Kept: `?` and then the value, as in the readers beside it; `map` is no plainer.
// Reads an integer.
fn read_integer(bytes: &[u8]) -> Result<Found<'_>, Stop>
    ensures { (d : ℕ) → Came 58 d bytes.now result }
{
    let (n, rest) = integer_line(bytes)?;
    Ok(Found {
        value: Value::Integer(n),
        rest,
    })
}

// Reads a bulk string or nil.
fn read_bulk(bytes: &[u8]) -> Result<Found<'_>, Stop>
    ensures { (d : ℕ) → Came 36 d bytes.now result }
{
    let (size, after) = head(bytes, BULK_SIZES)?;
    let Some(n) = size else {
        return Ok(Found {
            value: Value::Nil,
            rest: after,
        });
    };
    let (it, rest) = filled(after, n as usize)?;
    Ok(Found {
        value: Value::Bulk(it),
        rest,
    })
}

// Reads an array or the nil array; in its elements, `depth` arrays may lie inside one another.
#[cycle(read_array_read_value)]
fn read_array(bytes: &[u8], depth: usize) -> Result<Found<'_>, Stop>
    ensures { Came 42 (suc depth) bytes.now result }
{
    let (size, start) = head(bytes, ELEMENT_COUNTS)?;
    let Some(n) = size else {
        return Ok(Found {
            value: Value::NilArray,
            rest: start,
        });
    };
    let mut rest = start;
    for _ in 0..n {
        rest = read_value(rest, depth)?.rest;
    }
    let span = start.len() - rest.len();
    Ok(Found {
        value: Value::Array(&start[..span], n as usize),
        rest,
    })
}

// Reads a value in which `depth` arrays may lie inside one another.
#[cycle(read_array_read_value)]
pub fn read_value(bytes: &[u8], depth: usize) -> Result<Found<'_>, Stop>
    ensures { MatchResult result (λ f. Finds depth bytes.now f) (λ e. Stopped (Says depth) bytes.now e) }
{
    let (mark, rest) = first(bytes).ok_or(Stop::Short)?;
    match mark as char {
        '+' => read_text(rest, Value::Text),
        '-' => read_text(rest, Value::Error),
        ':' => read_integer(rest),
        '$' => read_bulk(rest),
        '*' if depth > 0 => read_array(rest, depth - 1),
        _ => Err(Stop::At(bytes.len())),
    }
}
