// The steps of the reader.
ghost use Rattle.std.specs.Prelude.{◌≡◌, ◌++◌, length, IfOk, IfErr};
ghost use Rattle.wire.specs.Steps.{Stopped, Between};
ghost use Rattle.request.specs.Grammar.{line, count_line, most_arguments};
ghost use Rattle.request.specs.Steps.{left, Passed, Stuck, Line, CountLine, Argument, Rows, Requests, Put, PutAll, Read};

use crate::reader::Reader;
use crate::taken::{MOST_ARGUMENTS, Part, Request};
use store::LONGEST_VALUE;
use wire::{Bounds, Stop, filled, number, pass};

// How many arguments a request may have.
const COUNTS: Bounds = Bounds {
    low: 1,
    high: MOST_ARGUMENTS as u64,
};

// How many bytes an argument may have.
const LENGTHS: Bounds = Bounds {
    low: 0,
    high: LONGEST_VALUE as u64,
};

// Passes a line of its mark and a number within the bounds.
fn line(bytes: &[u8], mark: u8, bounds: Bounds) -> Result<(u64, &[u8]), Stop>
    ensures within { IfOk result (λ p. Between bounds.low bounds.high p.0) }
    ensures passed { IfOk result (λ p. bytes.now ≡ line mark p.0 ++ p.1.now) }
    ensures stopped { IfErr result (Stopped (Line mark bounds.low bounds.high) bytes.now) }
{
    let after = pass(bytes, mark)?;
    number(after, bounds)
}

impl<'a> Reader<'a> {
    // What is left to read.
    fn rest(&self) -> &'a [u8]
        ensures { result.now ≡ left self.now }
    {
        &self.bytes[self.at..]
    }

    // Passes the line of the count.
    fn count(&mut self) -> Result<usize, Stop>
        ensures within { IfOk result (Between 1 most_arguments) }
        ensures passed { IfOk result (λ n. Passed self.old self.new (count_line n)) }
        ensures stuck { IfErr result (Stuck CountLine self.old) }
    {
        let (n, rest) = line(self.rest(), b'*', COUNTS)?;
        self.at = self.bytes.len() - rest.len();
        Ok(n as usize)
    }

    // Passes an argument, and tells where its bytes stand.
    fn argument(&mut self) -> Result<Part, Stop>
        ensures put { IfOk result (Put self.old self.new) }
        ensures stuck { IfErr result (Stuck Argument self.old) }
    {
        let (size, after) = line(self.rest(), b'$', LENGTHS)?;
        let (it, rest) = filled(after, size as usize)?;
        self.at = self.bytes.len() - rest.len();
        Ok(Part {
            place: self.bytes.len() - after.len(),
            size: it.len(),
        })
    }

    // Passes as many arguments as there are parts, and writes where their bytes stand.
    fn arguments(&mut self, parts: &mut [Part]) -> Result<(), Stop>
        ensures put { IfOk result (λ _. PutAll self.old self.new parts.new) }
        ensures stuck { IfErr result (Stuck (Rows (length parts.old)) self.old) }
    {
        for part in parts {
            *part = self.argument()?;
        }
        Ok(())
    }

    // Passes a request.
    pub fn request(&mut self) -> Result<Request<'a>, Stop>
        ensures read { IfOk result (Read self.old self.new) }
        ensures stuck { IfErr result (Stuck Requests self.old) }
    {
        let count = self.count()?;
        let mut parts = [Part { place: 0, size: 0 }; MOST_ARGUMENTS];
        self.arguments(&mut parts[..count])?;
        Ok(Request {
            bytes: self.bytes,
            parts,
            count,
            span: self.at,
        })
    }
}
