// The steps of a reader. Each is given the bytes left to read, and tells those that it leaves.
ghost use Rattle.std.specs.Prelude.{◌≡◌, ◌+◌, ◌<◌, [], ◌∷◌, ◌++◌, decimal, MatchOption, IfSome, IfNone, IfOk, IfErr};
ghost use Rattle.wire.specs.Steps.{Stopped, crlf, Just, Between, Number, NoDigit, Ends, Sized, Filled};

use crate::bounds::Bounds;
use crate::stop::Stop;

// Kept: beside std's `split_first`, since that lends the byte, and a step wants its value: it is copied here once, and one clause tells which bytes there were.
// The first byte, and the others.
pub fn first(bytes: &[u8]) -> Option<(u8, &[u8])>
    ensures { MatchOption result (bytes.now ≡ []) (λ p. bytes.now ≡ p.0 ∷ p.1.now) }
{
    bytes.split_first().map(|(b, rest)| (*b, rest))
}

// Passes the byte `b`.
pub fn pass(bytes: &[u8], b: u8) -> Result<&[u8], Stop>
    ensures passed { IfOk result (λ rest. bytes.now ≡ b ∷ rest.now) }
    ensures stopped { IfErr result (Stopped (Just (b ∷ [])) bytes.now) }
{
    let (c, rest) = first(bytes).ok_or(Stop::Short)?;
    if c != b {
        return Err(Stop::At(bytes.len()));
    }
    Ok(rest)
}

// Passes two bytes.
fn pass_both(bytes: &[u8], a: u8, b: u8) -> Result<&[u8], Stop>
    ensures passed { IfOk result (λ rest. bytes.now ≡ a ∷ (b ∷ rest.now)) }
    ensures stopped { IfErr result (Stopped (Just (a ∷ b ∷ [])) bytes.now) }
{
    let rest = pass(bytes, a)?;
    pass(rest, b)
}

// Passes CR LF.
pub fn pass_end(bytes: &[u8]) -> Result<&[u8], Stop>
    ensures passed { IfOk result (λ rest. bytes.now ≡ crlf ++ rest.now) }
    ensures stopped { IfErr result (Stopped (Just crlf) bytes.now) }
{
    pass_both(bytes, b'\r', b'\n')
}

// The digit that comes first, and what follows it.
fn digit(bytes: &[u8]) -> Option<(u64, &[u8])>
    ensures small { IfSome result (λ p. p.0 < 10) }
    ensures passed { IfSome result (λ p. bytes.now ≡ (48 + p.0) ∷ p.1.now) }
    ensures none { IfNone result (NoDigit bytes.now) }
{
    let (b, rest) = first(bytes)?;
    if !b.is_ascii_digit() {
        return None;
    }
    Some((u64::from(b - b'0'), rest))
}

// Kept: the digits are summed here by hand, since std's `parse` takes a whole text, and here the longest numeral that begins the bytes is sought; `while let`, since the number and the rest move together.
// Passes the longest numeral that begins one of a number within the bounds.
fn digits(bytes: &[u8], bounds: Bounds) -> Result<(u64, &[u8]), Stop>
    ensures within { IfOk result (λ p. Between bounds.low bounds.high p.0) }
    ensures passed { IfOk result (λ p. bytes.now ≡ decimal p.0 ++ p.1.now) }
    ensures ends { IfOk result (λ p. Ends bounds.high p.0 p.1.now) }
    ensures stopped { IfErr result (Stopped (Number bounds.low bounds.high) bytes.now) }
{
    if bytes.is_empty() {
        return Err(Stop::Short);
    }
    let (mut n, mut rest) = digit(bytes).ok_or(Stop::At(bytes.len()))?;
    if n < bounds.low {
        return Err(Stop::At(bytes.len()));
    }
    while let Some((d, after)) = digit(rest) {
        if n == 0 || n > (bounds.high - d) / 10 {
            return Ok((n, rest));
        }
        n = n * 10 + d;
        rest = after;
    }
    Ok((n, rest))
}

// Passes a number within the bounds, and CR LF.
pub fn number(bytes: &[u8], bounds: Bounds) -> Result<(u64, &[u8]), Stop>
    ensures within { IfOk result (λ p. Between bounds.low bounds.high p.0) }
    ensures passed { IfOk result (λ p. bytes.now ≡ (decimal p.0 ++ crlf) ++ p.1.now) }
    ensures stopped { IfErr result (Stopped (Number bounds.low bounds.high) bytes.now) }
{
    let (n, after) = digits(bytes, bounds)?;
    let rest = pass_end(after)?;
    Ok((n, rest))
}

// Kept: beside std's `split_at_checked`, which says only when there is none; here it is told of which texts too few bytes are a beginning, in one clause for those that are passed on.
// Passes so many bytes.
fn part(bytes: &[u8], size: usize) -> Result<(&[u8], &[u8]), Stop>
    ensures sized { IfOk result (λ p. Sized size p.0.now) }
    ensures passed { IfOk result (λ p. bytes.now ≡ p.0.now ++ p.1.now) }
    ensures stopped { IfErr result (Stopped (Sized size) bytes.now) }
{
    bytes.split_at_checked(size).ok_or(Stop::Short)
}

// Passes so many bytes, and CR LF.
pub fn filled(bytes: &[u8], size: usize) -> Result<(&[u8], &[u8]), Stop>
    ensures sized { IfOk result (λ p. Sized size p.0.now) }
    ensures passed { IfOk result (λ p. bytes.now ≡ (p.0.now ++ crlf) ++ p.1.now) }
    ensures stopped { IfErr result (Stopped (Filled size) bytes.now) }
{
    let (it, after) = part(bytes, size)?;
    let rest = pass_end(after)?;
    Ok((it, rest))
}
