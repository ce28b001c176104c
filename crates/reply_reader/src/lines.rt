// The lines of replies. Each step is given the bytes left to read, and tells those that it leaves.
ghost use Rattle.std.specs.Prelude.{◌≡◌, ◌∷◌, ◌++◌, IfSome, IfNone, IfOk, IfErr, FitsSigned};
ghost use Rattle.std.specs.Int.{w64};
ghost use Rattle.std.specs.Fmt.{signed_decimal};
ghost use Rattle.reply.specs.Replies.{longest_text, Text};
ghost use Rattle.wire.specs.Steps.{crlf, Stopped};
ghost use Rattle.reply_reader.specs.Steps.{NoMinus, Integers, Heads, Head, Run, Texts};

use reply::LONGEST_TEXT;
use wire::{Bounds, Stop, number, pass, pass_end};

// The integers from 0 on.
const FROM_ZERO: Bounds = Bounds {
    low: 0,
    high: (1 << 63) - 1,
};

// The integers below 0, without their minus.
const BELOW_ZERO: Bounds = Bounds {
    low: 1,
    high: 1 << 63,
};

// What follows a minus that comes first.
fn minus(bytes: &[u8]) -> Option<&[u8]>
    ensures passed { IfSome result (λ rest. bytes.now ≡ 45 ∷ rest.now) }
    ensures none { IfNone result (NoMinus bytes.now) }
{
    bytes.strip_prefix(b"-")
}

// Kept: the number `n` below 0 is made as -1 - (n - 1), since 2 to the power 63 itself is no `i64`; `checked_sub_unsigned` would answer an Option whose None cannot come, and is no plainer.
// Passes an integer and CR LF.
pub fn integer_line(bytes: &[u8]) -> Result<(i64, &[u8]), Stop>
    ensures fits { IfOk result (λ p. FitsSigned w64 p.0) }
    ensures passed { IfOk result (λ p. bytes.now ≡ (signed_decimal p.0 ++ crlf) ++ p.1.now) }
    ensures stopped { IfErr result (Stopped Integers bytes.now) }
{
    if let Some(after) = minus(bytes) {
        let (n, rest) = number(after, BELOW_ZERO)?;
        return Ok((-1 - (n - 1) as i64, rest));
    }
    let (n, rest) = number(bytes, FROM_ZERO)?;
    Ok((n as i64, rest))
}

// Passes a number within the bounds, or -1, and CR LF.
pub fn head(bytes: &[u8], bounds: Bounds) -> Result<(Option<u64>, &[u8]), Stop>
    ensures passed { IfOk result (λ p. Head bounds.low bounds.high bytes.now p.0 p.1.now) }
    ensures stopped { IfErr result (Stopped (Heads bounds.low bounds.high) bytes.now) }
{
    if let Some(sign) = minus(bytes) {
        let one = pass(sign, b'1')?;
        let rest = pass_end(one)?;
        return Ok((None, rest));
    }
    let (n, rest) = number(bytes, bounds)?;
    Ok((Some(n), rest))
}

// How many bytes the longest text has that comes first.
fn text_size(bytes: &[u8]) -> usize
    ensures { Run longest_text bytes.now result }
{
    bytes
        .iter()
        .take(LONGEST_TEXT)
        .take_while(|&&b| !matches!(b, b'\r' | b'\n'))
        .count()
}

// Passes a text and CR LF.
pub fn text_line(bytes: &[u8]) -> Result<(&[u8], &[u8]), Stop>
    ensures text { IfOk result (λ p. Text p.0.now) }
    ensures passed { IfOk result (λ p. bytes.now ≡ (p.0.now ++ crlf) ++ p.1.now) }
    ensures stopped { IfErr result (Stopped Texts bytes.now) }
{
    let (it, after) = bytes.split_at(text_size(bytes));
    let rest = pass_end(after)?;
    Ok((it, rest))
}
