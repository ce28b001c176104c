// The entries of many values, a line for each, to compare with another implementation: the value in quotes, where a byte that
// is not printable, a quote and a backslash stand as \x and two hexadecimal digits, and then the bytes of its entry in
// hexadecimal. Each width of an integer is shown on both sides of its ends, and texts of every length that changes the form.
#![tactic(auto)]

use entry::{LONGEST_ENTRY, encode};
use std::io;
use store::LONGEST_VALUE;

fn show_value(rt: &HostRuntime, value: &[u8]) -> io::Result<()> {
    print!(rt; "\"")?;
    for &b in value {
        match b {
            b' '..=b'~' if b != b'"' && b != b'\\' => print!(rt; "{}", b as char)?,
            _ => print!(rt; "\\x{b:02X}")?,
        }
    }
    print!(rt; "\"")
}

fn show(rt: &HostRuntime, value: &[u8]) -> io::Result<()> {
    show_value(rt, value)?;
    let mut out = [0; LONGEST_ENTRY];
    match encode(value, &mut out) {
        Some(n) => {
            for b in &out[..n] {
                print!(rt; " {b:02X}")?;
            }
            println!(rt; "")
        }
        None => println!(rt; " too long"),
    }
}

// Values that stand with commas between them.
fn show_all(rt: &HostRuntime, values: &str) -> io::Result<()> {
    for value in values.split(',') {
        show(rt, value.as_bytes())?;
    }
    Ok(())
}

fn show_integers(rt: &HostRuntime) -> io::Result<()> {
    show_all(rt, "0,1,9,10,126,127,128,129,255,256")?;
    show_all(rt, "4094,4095,4096,4097")?;
    show_all(rt, "32766,32767,32768,32769,65535,65536")?;
    show_all(rt, "8388606,8388607,8388608,8388609,16777215,16777216")?;
    show_all(rt, "2147483646,2147483647,2147483648,2147483649")?;
    show_all(rt, "4294967295,4294967296")?;
    show_all(rt, "9223372036854775806,9223372036854775807")?;
    show_all(rt, "-1,-2,-127,-128,-129,-255,-256,-257")?;
    show_all(rt, "-4095,-4096,-4097,-4098")?;
    show_all(rt, "-32767,-32768,-32769,-32770")?;
    show_all(rt, "-8388607,-8388608,-8388609,-8388610")?;
    show_all(rt, "-2147483647,-2147483648,-2147483649,-2147483650")?;
    show_all(rt, "-9223372036854775807,-9223372036854775808")
}

// Texts that look like integers and are none.
fn show_others(rt: &HostRuntime) -> io::Result<()> {
    show_all(rt, "9223372036854775808,-9223372036854775809")?;
    show_all(rt, "18446744073709551615,18446744073709551616")?;
    show_all(rt, "99999999999999999999,-99999999999999999999")?;
    show_all(rt, "100000000000000000000")?;
    show_all(rt, "-,+,-0,+0,+1,--1,+-1,00,01,007,-01,-007")?;
    show_all(rt, " 1,1 ,1\n,1\0,1.0,1e3,0x1F,1_000,a1,1a")
}

// A text of n bytes, at most one more than a value has, all of them b.
fn show_text(rt: &HostRuntime, b: u8, n: usize) -> io::Result<()> {
    let text = [b; LONGEST_VALUE + 1];
    let size = n.min(text.len());
    show(rt, &text[..size])
}

fn show_texts(rt: &HostRuntime) -> io::Result<()> {
    show_all(rt, ",a,ab,hello,\",\\")?;
    for n in [31, 32, 62, 63, 64, 65] {
        show_text(rt, b'x', n)?;
    }
    for n in [19, 20, 63, 64] {
        show_text(rt, b'9', n)?;
    }
    for b in [0, 0x1F, 0x7F, 0x80, 0xFF] {
        show_text(rt, b, 1)?;
    }
    show_text(rt, 0xFF, 64)
}

fn main(rt: HostRuntime) -> io::Result<()> {
    show_integers(&rt)?;
    show_others(&rt)?;
    show_texts(&rt)
}
