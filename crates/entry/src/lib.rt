// The entry of a value: the bytes in which a packed list keeps it. An integer text is kept as its integer in the fewest bytes
// that hold it, any other text as it is; the length of the encoding and data stands last.
#![tactic(auto)]

ghost use Rattle.std.specs.Prelude.{◌≡◌, ◌≢◌, ◌↔◌, ◌+◌, ◌*◌, ◌^◌, ◌<◌, ◌≤◌, [], ◌∷◌, ◌++◌, length, drop, Some, None, IfSome, IsSome, IsTrue, IfNone, List, ℕ};
ghost use Rattle.std.specs.Option.{option_map, SomeIff};
ghost use Rattle.std.specs.Int.Signed.{mag};
ghost use Rattle.std.specs.Fmt.{signed_decimal};
ghost use Rattle.decimal.specs.Integer.{integer, longest_text};
ghost use Rattle.store.specs.Limits.{longest_value};
ghost use Rattle.store.specs.Answers.{over};
ghost use Rattle.entry.specs.Entry.{longest_entry, tiny, number, text, body, entry, told, span_in, Encoded, Decoded, ReadsBack};
ghost use Rattle.entry.specs.Reading.{unlow, back, tiny_in, thirteen_in, number_in, text_in, other, value_in, size_in, Taken};
ghost use Rattle.entry.specs.Widths.{code_of, size_of, sign_of, takes};
ghost use Rattle.entry.specs.Laws.{EntryLaws, Worked};

use std::marker::Model;
use store::LONGEST_VALUE;

// The most bytes that an entry has.
pub const LONGEST_ENTRY: usize = 67;

// The laws of entries and the worked cases stand in contracts here, so that none can be dropped.
fn entries_are_lawful()
    ensures { EntryLaws }
{}

fn worked_cases_hold()
    ensures { Worked }
{}

// A value: bytes that are few enough.
#[derive(Drop)]
struct Value<'a> {
    bytes: &'a [u8],
}

impl<'a> Model for Value<'a> {
    ghost Value = { List ℕ };

    ghost view = { λ v. v.bytes.now };

    ghost invariant = { λ v. length v.bytes.now ≤ longest_value };
}

impl<'a> Value<'a> {
    fn new(bytes: &'a [u8]) -> Option<Value<'a>>
        ensures some { IfSome result (λ v. v ≡ bytes.now) }
        ensures few { IsSome result ↔ (length bytes.now ≤ longest_value) }
    {
        if bytes.len() > LONGEST_VALUE {
            return None;
        }
        Some(Value { bytes })
    }
}

// ---- the widths of integers

// How far an integer is from 0 or -1.
fn magnitude(z: i64) -> u64
    ensures { result ≡ mag z }
{
    if z < 0 {
        z.unsigned_abs() - 1
    } else {
        z.unsigned_abs()
    }
}

// How many bits of two's complement an integer past 13 bits takes; the number is its encoding.
#[derive(Clone, Copy, PartialEq)]
enum Width {
    Bits16 = 0xF1,
    Bits24 = 0xF2,
    Bits32 = 0xF3,
    Bits64 = 0xF4,
}

impl Width {
    // How many bytes stand behind the encoding.
    fn size(self) -> usize
        ensures { result ≡ size_of self }
    {
        match self {
            Width::Bits16 => 2,
            Width::Bits24 => 3,
            Width::Bits32 => 4,
            Width::Bits64 => 8,
        }
    }

    // Its sign bit.
    fn sign(self) -> u64
        ensures { result ≡ sign_of self }
    {
        1 << (8 * self.size() - 1)
    }

    // The width that an integer takes, if 13 bits do not hold it.
    fn of(z: i64) -> Option<Width>
        ensures some { IfSome result (λ w. IsTrue (takes w z)) }
        ensures none { IfNone result (mag z < 2 ^ 12) }
    {
        match magnitude(z) {
            0..0x1000 => None,
            0x1000..0x8000 => Some(Width::Bits16),
            0x8000..0x80_0000 => Some(Width::Bits24),
            0x80_0000..0x8000_0000 => Some(Width::Bits32),
            _ => Some(Width::Bits64),
        }
    }

    // The width with an encoding. The four are compared as numbers, since this stands on the way of every entry that is passed.
    fn coded(code: u8) -> Option<Width>
        ensures some { IfSome result (λ w. code_of w ≡ code) }
        ensures none { result ≡ None → (w : Width) → code_of w ≢ code }
    {
        match code {
            0xF1 => Some(Width::Bits16),
            0xF2 => Some(Width::Bits24),
            0xF3 => Some(Width::Bits32),
            0xF4 => Some(Width::Bits64),
            _ => None,
        }
    }
}

// ---- writing

// Writes bytes, and others behind them, to the beginning of `out`, and tells how many.
// Kept: here and in what follows the caller's array is filled and the length told, since all memory is lent, and the bytes behind
// what is written stay.
fn put(first: &[u8], then: &[u8], out: &mut [u8]) -> usize
    requires { length first.now + length then.now ≤ length out.old }
    ensures size { result ≡ length (first.now ++ then.now) }
    ensures bytes { out.new ≡ over out.old (first.now ++ then.now) }
{
    let size = first.len() + then.len();
    out[..first.len()].copy_from_slice(first);
    out[first.len()..size].copy_from_slice(then);
    size
}

// Writes an integer that takes a width.
fn write_wide(width: Width, z: i64, out: &mut [u8; LONGEST_ENTRY]) -> usize
    requires { IsTrue (takes width z) }
    ensures size { result ≡ length (number z) }
    ensures bytes { out.new ≡ over out.old (number z) }
{
    put(&[width as u8], &z.to_le_bytes()[..width.size()], out)
}

// Whether an integer is its own encoding.
fn is_tiny(z: i64) -> bool
    ensures { result ≡ tiny z }
{
    (0..128).contains(&z)
}

// Writes the encoding and data of an integer, in the fewest bytes that hold it.
fn write_number(z: i64, out: &mut [u8; LONGEST_ENTRY]) -> usize
    ensures size { result ≡ length (number z) }
    ensures bytes { out.new ≡ over out.old (number z) }
{
    if is_tiny(z) {
        return put(&[z as u8], &[], out);
    }
    match Width::of(z) {
        Some(width) => write_wide(width, z, out),
        None => {
            // 13 bits, behind the bits 110
            let bits = (z.cast_unsigned() % 0x2000) as u16;
            put(&(0xC000 + bits).to_be_bytes(), &[], out)
        }
    }
}

// Writes the encoding of a text, and the text.
fn write_text(value: &Value, out: &mut [u8; LONGEST_ENTRY]) -> usize
    ensures size { result ≡ length (text value.now) }
    ensures bytes { out.new ≡ over out.old (text value.now) }
{
    let n = value.bytes.len();
    if n <= 63 {
        return put(&[0x80 + n as u8], value.bytes, out);
    }
    put(&(0xE000 + n as u16).to_be_bytes(), value.bytes, out)
}

// Writes the encoding and data of a value to the beginning of `out`, and tells their length.
fn write_body(value: &Value, out: &mut [u8; LONGEST_ENTRY]) -> usize
    ensures size { result ≡ length (body value.now) }
    ensures few { result < longest_entry }
    ensures bytes { out.new ≡ over out.old (body value.now) }
{
    match decimal::read(value.bytes) {
        Some(z) => write_number(z, out),
        None => write_text(value, out),
    }
}

// The same, and their length behind them.
fn write_entry(value: &Value, out: &mut [u8; LONGEST_ENTRY]) -> usize
    ensures size { result ≡ length (entry value.now) }
    ensures few { result ≤ longest_entry }
    ensures bytes { out.new ≡ over out.old (entry value.now) }
{
    let n = write_body(value, out);
    out[n] = n as u8;
    n + 1
}

// Writes the entry of a value to the beginning of `out`, and tells its length; none of a value that is too long.
// Kept: the caller's array is filled and the length told, since all memory is lent, and the bytes behind the entry stay.
pub fn encode(value: &[u8], out: &mut [u8; LONGEST_ENTRY]) -> Option<usize>
    ensures { Encoded value.now out.old out.new result }
{
    let value = Value::new(value)?;
    Some(write_entry(&value, out))
}

// ---- spans

// How many bytes an encoding and its data are, told by the first two bytes.
fn told_by(first: u8, second: u8) -> Option<usize>
    ensures { SomeIff result (0 < told (first ∷ second ∷ [])) (told (first ∷ second ∷ [])) }
{
    match first {
        0x00..=0x7F => Some(1),
        0x80..=0xBF => Some(first as usize - 0x80 + 1),
        0xC0..=0xDF => Some(2),
        0xE0..=0xEF => Some(u16::from_be_bytes([first - 0xE0, second]) as usize + 2),
        _ => Some(Width::coded(first)?.size() + 1),
    }
}

// How many bytes the entry at the beginning spans, told by its encoding alone; none where no entry begins so, or the bytes
// end before it.
pub fn span(bytes: &[u8]) -> Option<usize>
    ensures value { result ≡ span_in bytes.now }
    ensures within { IfSome result (λ n. (2 ≤ n) × (n ≤ length bytes.now)) }
{
    let [first, second, ..] = bytes else {
        return None;
    };
    let n = told_by(*first, *second)?;
    if n >= bytes.len() {
        return None;
    }
    Some(n + 1)
}

// ---- reading

// The number of bytes, the lowest first.
fn from_low(digits: &[u8]) -> u64
    requires { length digits.now ≤ 8 }
    ensures { result ≡ unlow digits.now }
{
    let mut bytes = [0; 8];
    put(digits, &[], &mut bytes);
    u64::from_le_bytes(bytes)
}

// The integer of a two's complement whose sign bit is `sign`.
fn from_bits(sign: u64, bits: u64) -> i64
    requires fits { bits < 2 * sign }
    requires most { sign ≤ 2 ^ 63 }
    ensures { result ≡ back sign bits }
{
    if bits < sign {
        return bits as i64;
    }
    -1 - (sign - 1 - (bits - sign)) as i64
}

// The integer of a width that bytes hold, unless a shorter form has it.
fn read_wide(width: Width, bytes: &[u8]) -> Option<i64>
    ensures { result ≡ number_in (code_of width ∷ bytes.now) }
{
    if bytes.len() != width.size() {
        return None;
    }
    let z = from_bits(width.sign(), from_low(bytes));
    (Width::of(z) == Some(width)).then_some(z)
}

// An integer of one byte, and one of 13 bits, unless it fits one byte.
fn read_tiny(b: u8) -> Option<i64>
    ensures { result ≡ tiny_in b }
{
    (b < 0x80).then_some(b as i64)
}

fn read_thirteen(b: u8, c: u8) -> Option<i64>
    ensures { result ≡ thirteen_in b c }
{
    if !(0xC0..0xE0).contains(&b) {
        return None;
    }
    let z = from_bits(0x1000, u16::from_be_bytes([b - 0xC0, c]) as u64);
    (!is_tiny(z)).then_some(z)
}

// The integer whose encoding and data these bytes are.
fn read_number(coded: &[u8]) -> Option<i64>
    ensures { result ≡ number_in coded.now }
{
    match coded {
        [] => None,
        [b] => read_tiny(*b),
        [b, c] => read_thirteen(*b, *c),
        [code, rest @ ..] => read_wide(Width::coded(*code)?, rest),
    }
}

// The text whose encoding and data these bytes are.
fn read_text(coded: &[u8]) -> Option<Value>
    ensures some { IfSome result (λ text. Some text ≡ option_map (λ place. drop place coded.now) (text_in coded.now)) }
    ensures none { IfNone result (text_in coded.now ≡ None) }
{
    match coded {
        [first @ 0x80..=0xBF, text @ ..] if text.len() == *first as usize - 0x80 => Value::new(
            text,
        ),
        [first @ 0xE0..=0xEF, second, text @ ..]
            if text.len() > 63
                && text.len() == u16::from_be_bytes([*first - 0xE0, *second]) as usize => {
            Value::new(text)
        }
        _ => None,
    }
}

// Writes the text of an integer to the beginning of `out`, and tells its length.
fn put_integer(z: i64, out: &mut [u8; LONGEST_VALUE]) -> usize
    ensures size { result ≡ length (signed_decimal z) }
    ensures few { result ≤ longest_text }
    ensures bytes { out.new ≡ over out.old (signed_decimal z) }
{
    let mut digits = [0; decimal::LONGEST_TEXT];
    let size = decimal::write(z, &mut digits);
    put(&digits[..size], &[], out)
}

// Copies a text to the beginning of `out`, and tells its length, unless it is an integer text.
fn put_text(found: &Value, out: &mut [u8; LONGEST_VALUE]) -> Option<usize>
    ensures { Taken (other found.now (integer found.now)) out.old out.new result }
{
    if decimal::read::<i64>(found.bytes).is_some() {
        return None;
    }
    Some(put(found.bytes, &[], out))
}

// Writes the value whose encoding and data these bytes are to the beginning of `out`, and tells its length.
fn read_body(coded: &[u8], out: &mut [u8; LONGEST_VALUE]) -> Option<usize>
    ensures { Taken (value_in coded.now) out.old out.new result }
{
    if let Some(z) = read_number(coded) {
        return Some(put_integer(z, out));
    }
    put_text(&read_text(coded)?, out)
}

// How many bytes the encoding and data at the beginning are, where the length after them is right.
fn body_size(bytes: &[u8]) -> Option<usize>
    ensures value { result ≡ size_in bytes.now }
    ensures within { IfSome result (λ n. (1 ≤ n) × (n < length bytes.now)) }
{
    let size = span(bytes)? - 1;
    if bytes[size] as usize != size {
        return None;
    }
    Some(size)
}

// Copies the value whose entry the bytes begin with to the beginning of `out`, and tells its length and that of the entry;
// none where the bytes do not begin with just what `encode` writes of some value.
// Kept: the caller's array is filled and the length told, since all memory is lent, and the bytes behind the value stay; the
// value's length and the span are told as a pair, as the project asks.
pub fn decode(bytes: &[u8], out: &mut [u8; LONGEST_VALUE]) -> Option<(usize, usize)>
    ensures exact { Decoded bytes.now out.old out.new result }
    ensures known { ReadsBack bytes.now out.old out.new result }
{
    let size = body_size(bytes)?;
    let length = read_body(&bytes[..size], out)?;
    Some((length, size + 1))
}
