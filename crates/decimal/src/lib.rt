// Numbers of 64 bits as decimal text: read from the one text that a number has, and written as that text.
#![tactic(auto)]

ghost use Rattle.std.specs.Prelude.{◌≡◌, ℕ, ◌<◌, ◌≤◌, ◌^◌, ◌++◌, List, length, drop, Option, Some, Ok, IfSome, IfNone, IsUtf8, FitsSigned};
ghost use Rattle.std.specs.Int.{w64};
ghost use Rattle.decimal.specs.Integer.{longest_text, Numberlike, natural, integer, TextLaws};
ghost use Rattle.decimal.specs.NumberLaws.{reads, writes, reads_natural, writes_natural, parses, parses_natural, parsed, parsed_natural, is_text, is_natural_text, is_short, is_numberlike, is_numberlike_natural, is_parsed, is_natural_parsed};

use itoa::{Buffer, Integer};
use std::num::ParseIntError;
use std::str::{self, FromStr};

// The most bytes that the text of a number has.
pub const LONGEST_TEXT: usize = 20;

// That reading undoes writing, and writing undoes reading, stands in a contract here, so that it cannot be dropped.
fn texts_are_lawful()
    ensures { TextLaws }
{}

// A type whose numbers have one text each, which is the one that std writes.
pub trait Decimal: Integer + FromStr<Err = ParseIntError> {
    // The number that a text writes, if it writes one.
    ghost number: { List ℕ → Option Self };

    // A number is one of the type: in a law it may be any.
    ghost fits: { Self → Type 0 };

    // Reading undoes writing, and writing undoes reading.
    ghost reads: { (t : List ℕ) (n : Self) → number t ≡ Some n → (t ≡ Self.text n) × fits n };

    ghost writes: { (n : Self) → fits n → number (Self.text n) ≡ Some n };

    // What std parses of the text of a number is that number, and what it parses fits.
    ghost parses: { (n : Self) (r : _) → fits n → Self.from_str_gives (Self.text n) r → r ≡ Ok n };

    ghost parsed: { (t : List ℕ) (n : Self) → Self.from_str_gives t (Ok n) → fits n };

    // A text is UTF-8, and short.
    ghost is_text: { (n : Self) → fits n → IsUtf8 (Self.text n) };

    ghost is_short: { Self.MAX_STR_LEN ≤ longest_text };

    // It has at most 20 bytes, no plus, a zero first only alone, and none behind a minus; and of what looks so, only the text of a number is parsed as it.
    ghost is_numberlike: { (n : Self) → fits n → Numberlike (Self.text n) };

    ghost is_its_text: { (t : List ℕ) (n : Self) → Numberlike t → Self.from_str_gives t (Ok n) → t ≡ Self.text n };
}

impl Decimal for u64 {
    ghost number = { natural };

    ghost fits = { λ n. n < 2 ^ 64 };

    ghost reads = { reads_natural };

    ghost writes = { writes_natural };

    ghost parses = { λ n r f p. parses_natural n r f p.0 };

    ghost parsed = { λ t n p. parsed_natural _ _ n p.0 };

    ghost is_text = { is_natural_text };

    ghost is_short = { is_short };

    ghost is_numberlike = { is_numberlike_natural };

    ghost is_its_text = { λ t n l p. is_natural_parsed t n l p.0 };
}

impl Decimal for i64 {
    ghost number = { integer };

    ghost fits = { FitsSigned w64 };

    ghost reads = { reads };

    ghost writes = { writes };

    ghost parses = { λ n r f p. parses n r f p.0 };

    ghost parsed = { λ t n p. parsed _ _ n p.0 };

    ghost is_text = { is_text };

    ghost is_short = { is_short };

    ghost is_numberlike = { is_numberlike };

    ghost is_its_text = { λ t n l p. is_parsed t n l p.0 };
}

// A text as std reads it, if it looks like one of a number: of any other text few bytes are looked at.
fn numeral(text: &[u8]) -> Option<&str>
    ensures whole { IfSome result (λ numeral. numeral.now ≡ text.now) }
    ensures looks { IfSome result (λ _. Numberlike text.now) }
    ensures none { IfNone result (Numberlike text.now → IsUtf8 text.now → ⊥) }
{
    match text {
        [b'+', ..] | [b'0', _, ..] | [b'-', b'0', ..] => None,
        _ if text.len() > LONGEST_TEXT => None,
        _ => str::from_utf8(text).ok(),
    }
}

// The number that a text writes, if it writes one.
pub fn read<N: Decimal>(text: &[u8]) -> Option<N>
    ensures { result ≡ N.number text.now }
{
    numeral(text)?.parse().ok()
}

// Kept: the caller's array is filled and the length told, since the array is the caller's own and its bytes behind the text stay as they were: a text of its own would not keep them.
// Writes the text of a number to the beginning of `out`, and tells its length.
pub fn write<N: Decimal>(number: N, out: &mut [u8; LONGEST_TEXT]) -> usize
    ensures size { result ≡ length (N.text number) }
    ensures few { result ≤ longest_text }
    ensures bytes { out.new ≡ N.text number ++ drop (length (N.text number)) out.old }
{
    let mut buffer = Buffer::new();
    let text = buffer.format(number).as_bytes();
    out[..text.len()].copy_from_slice(text);
    text.len()
}
