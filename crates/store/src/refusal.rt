// Why a store is not made, or leaves an operation undone.
ghost use Rattle.std.specs.Prelude.{◌≡◌};
ghost use Rattle.store.specs.Limits.{refusal_number, unfit_number};

use std::error::Error;
use std::fmt;

// Why a store leaves an operation undone.
#[derive(Clone, Copy, Debug, PartialEq, Eq)]
pub enum Refusal {
    LongKey,
    LongValue,
    Full,
    OutOfRange,
}

// Kept: refusals have numbers, since the project's rules give them; code answers the enum, and the number is made from it here alone.
// The number of the refusal.
impl From<Refusal> for u8 {
    ghost from_gives = { λ refusal number. number ≡ refusal_number refusal };

    fn from(refusal: Refusal) -> u8 {
        match refusal {
            Refusal::LongKey => 1,
            Refusal::LongValue => 2,
            Refusal::Full => 3,
            Refusal::OutOfRange => 4,
        }
    }
}

impl fmt::Display for Refusal {
    fn fmt<W: fmt::Write>(&self, f: &mut fmt::Formatter<W>) -> fmt::Result {
        f.write_str(match self {
            Refusal::LongKey => "the key is too long",
            Refusal::LongValue => "the value is too long",
            Refusal::Full => "the store is full",
            Refusal::OutOfRange => "there is no such place",
        })
    }
}

impl Error for Refusal {}

// The number of the refusal to make a store over tables that do not fit.
const UNFIT: u8 = 7;

// Tables that no store can be made over, as they were.
#[derive(Drop)]
pub struct Unfit<T> {
    pub tables: T,
}

impl<T> Unfit<T> {
    // The number of the refusal.
    pub fn number(&self) -> u8
        ensures { result ≡ unfit_number }
    {
        UNFIT
    }
}
