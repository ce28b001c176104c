// Replies as bytes: each kind is written at a place of the caller's output, or refused with the output as it was.
#![tactic(auto)]

ghost use Rattle.std.specs.Prelude.{◌↔◌, ◌+◌, ◌≤◌, length, IsTrue};
ghost use Rattle.reply.specs.Replies.{Text, line, text, error, integer, bulk, nil, nil_array};
ghost use Rattle.reply.specs.Written.{Put, Wrote, Headed, WriteLaws};
ghost use Rattle.reply.specs.Writers.{Lays, Moves};

use decimal::Decimal;

// The most bytes of a text.
pub const LONGEST_TEXT: usize = 100;

// The most bytes of a bulk string.
pub const LONGEST_BULK: usize = 64;

// The most elements of an array.
pub const MOST_ELEMENTS: usize = 4096;

// That writes leave the rest of the output, and that an array's elements go right behind its heading, stands in a contract here, so that it cannot be dropped.
fn writes_are_lawful()
    ensures { WriteLaws }
{}

// Whether bytes are few enough for a text, with no CR or LF among them.
fn is_text(bytes: &[u8]) -> bool
    ensures { IsTrue result ↔ Text bytes.now }
{
    bytes.len() <= LONGEST_TEXT && !bytes.contains(&b'\r') && !bytes.contains(&b'\n')
}

// An output, and the place in it where the next reply goes; past the end of the output nothing can be written.
#[derive(Drop)]
pub struct Writer<'a> {
    pub out: &'a mut [u8],
    pub place: usize,
}

// Kept: a kind is told to the private functions by its mark, the very byte that is written; an enum of the kinds would only be turned into it.
// Each function that writes a reply tells its bytes, and moves the place behind them; one that cannot, because the reply is
// none or there is no room for it, leaves the output and the place as they were.
impl<'a> Writer<'a> {
    // Whether there is room for so many bytes.
    fn has_room(&self, size: usize) -> bool
        ensures { IsTrue result ↔ (self.now.place + size ≤ length self.now.out.now) }
    {
        self.place <= self.out.len() && size <= self.out.len() - self.place
    }

    // Writes bytes, and moves behind them.
    fn lay(&mut self, bytes: &[u8])
        requires { self.old.place + length bytes.now ≤ length self.old.out.now }
        ensures { Lays bytes.now self.old self.new }
    {
        let end = self.place + bytes.len();
        self.out[self.place..end].copy_from_slice(bytes);
        self.place = end;
    }

    // Writes a line.
    fn lay_line(&mut self, mark: u8, bytes: &[u8])
        requires { self.old.place + length (line mark bytes.now) ≤ length self.old.out.now }
        ensures { Lays (line mark bytes.now) self.old self.new }
    {
        self.lay(&[mark]);
        self.lay(bytes);
        self.lay(b"\r\n");
    }

    // Writes a line, if there is room.
    fn line(&mut self, mark: u8, bytes: &[u8]) -> Option<usize>
        ensures wrote { Put (Unit {0}) (line mark bytes.now) self.old.out.now self.old.place result self.new.out.now }
        ensures moved { Moves self.old self.new result }
    {
        let size = bytes.len() + 3;
        if !self.has_room(size) {
            return None;
        }
        self.lay_line(mark, bytes);
        Some(size)
    }

    // Writes a line whose text is the caller's.
    fn text_line(&mut self, mark: u8, bytes: &[u8]) -> Option<usize>
        ensures wrote { Put (Text bytes.now) (line mark bytes.now) self.old.out.now self.old.place result self.new.out.now }
        ensures moved { Moves self.old self.new result }
    {
        if !is_text(bytes) {
            return None;
        }
        self.line(mark, bytes)
    }

    // Writes a line of a number.
    fn number_line<N: Decimal>(&mut self, mark: u8, number: N) -> Option<usize>
        ensures wrote { Put (Unit {0}) (line mark (N.text number)) self.old.out.now self.old.place result self.new.out.now }
        ensures moved { Moves self.old self.new result }
    {
        let mut digits = [0; decimal::LONGEST_TEXT];
        let size = decimal::write(number, &mut digits);
        self.line(mark, &digits[..size])
    }

    // Writes a text.
    pub fn text(&mut self, bytes: &[u8]) -> Option<usize>
        ensures wrote { Wrote (text bytes.now) self.old.out.now self.old.place result self.new.out.now }
        ensures moved { Moves self.old self.new result }
    {
        self.text_line(b'+', bytes)
    }

    // Writes an error.
    pub fn error(&mut self, bytes: &[u8]) -> Option<usize>
        ensures wrote { Wrote (error bytes.now) self.old.out.now self.old.place result self.new.out.now }
        ensures moved { Moves self.old self.new result }
    {
        self.text_line(b'-', bytes)
    }

    // Writes an integer.
    pub fn integer(&mut self, number: i64) -> Option<usize>
        ensures wrote { Wrote (integer number) self.old.out.now self.old.place result self.new.out.now }
        ensures moved { Moves self.old self.new result }
    {
        self.number_line(b':', number)
    }

    // Writes a bulk string.
    pub fn bulk(&mut self, bytes: &[u8]) -> Option<usize>
        ensures wrote { Wrote (bulk bytes.now) self.old.out.now self.old.place result self.new.out.now }
        ensures moved { Moves self.old self.new result }
    {
        if bytes.len() > LONGEST_BULK {
            return None;
        }
        let mut digits = [0; decimal::LONGEST_TEXT];
        let count = decimal::write(bytes.len() as u64, &mut digits);
        let size = count + bytes.len() + 5;
        if !self.has_room(size) {
            return None;
        }
        self.lay_line(b'$', &digits[..count]);
        self.lay(bytes);
        self.lay(b"\r\n");
        Some(size)
    }

    // Writes nil.
    pub fn nil(&mut self) -> Option<usize>
        ensures wrote { Wrote nil self.old.out.now self.old.place result self.new.out.now }
        ensures moved { Moves self.old self.new result }
    {
        self.line(b'$', b"-1")
    }

    // Writes the nil array.
    pub fn nil_array(&mut self) -> Option<usize>
        ensures wrote { Wrote nil_array self.old.out.now self.old.place result self.new.out.now }
        ensures moved { Moves self.old self.new result }
    {
        self.line(b'*', b"-1")
    }

    // Writes what stands before the elements of an array; the elements are the caller's to write behind it.
    pub fn heading(&mut self, count: usize) -> Option<usize>
        ensures wrote { Headed count self.old.out.now self.old.place result self.new.out.now }
        ensures moved { Moves self.old self.new result }
    {
        if count > MOST_ELEMENTS {
            return None;
        }
        self.number_line(b'*', count as u64)
    }
}
