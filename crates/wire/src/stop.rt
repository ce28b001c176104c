// Why nothing is read.
ghost use Rattle.std.specs.Prelude.{◌≡◌, ℕ, ◌-◌, length};
ghost use Rattle.wire.specs.declared.stop.Stop.TheVariants.{Short as Ended, At};
ghost use Rattle.wire.specs.declared.stop.ReadError.TheVariants.{More, Fault};

use std::error::Error;
use std::fmt;

// Why no whole text was read: the bytes are a beginning of one that wants more; or no text has them, and then how many bytes one could begin with.
#[derive(Clone, Copy, Debug, PartialEq, Eq)]
pub enum ReadError {
    More,
    Fault(usize),
}

impl fmt::Display for ReadError {
    fn fmt<W: fmt::Write>(&self, f: &mut fmt::Formatter<W>) -> fmt::Result {
        match self {
            ReadError::More => f.write_str("more bytes are needed"),
            ReadError::Fault(place) => write!(f, "byte {place} cannot stand there"),
        }
    }
}

impl Error for ReadError {}

// Kept: a type of its own beside `ReadError`, though of the same shape: this one counts from the end, that one from the front, and one type would let them be mixed.
// Why a step did not pass what it reads: the bytes ended, or a byte cannot stand where it stands; then how many bytes there are from it on.
#[derive(Clone, Copy)]
pub enum Stop {
    Short,
    At(usize),
}

impl Stop {
    // The same, told from the front of the bytes that the step was given.
    pub fn seen_from(self, bytes: &[u8]) -> ReadError
        ensures more { self ≡ Ended → result ≡ More }
        ensures place { (k : ℕ) → self ≡ At k → result ≡ Fault (length bytes.now - k) }
    {
        match self {
            Stop::Short => ReadError::More,
            Stop::At(left) => ReadError::Fault(bytes.len().saturating_sub(left)),
        }
    }
}
