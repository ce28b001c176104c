// The bytes of a node in hexadecimal, a line for each part, with the part's meaning.
use entry::decode;
use quicklist::{ListRecord, Node};
use records::find;
use std::io;
use store::LONGEST_VALUE;

// What the first byte of an entry says of the value.
fn form(first: u8) -> &'static str {
    match first {
        0x00..=0x7F => "an integer in 7 bits",
        0x80..=0xBF => "a text with its length in the first byte",
        0xC0..=0xDF => "an integer in 13 bits",
        0xE0..=0xEF => "a text with its length in two bytes",
        0xF1 => "an integer in 16 bits",
        0xF2 => "an integer in 24 bits",
        0xF3 => "an integer in 32 bits",
        _ => "an integer in 64 bits",
    }
}

fn show_bytes(rt: &HostRuntime, bytes: &[u8]) -> io::Result<()> {
    print!(rt; " ")?;
    for b in bytes {
        print!(rt; " {:02X}", *b)?;
    }
    Ok(())
}

// Encoding and data, and the value that they stand for.
fn show_coded(rt: &HostRuntime, coded: &[u8], value: &[u8]) -> io::Result<()> {
    let Some(first) = coded.first() else {
        return Ok(());
    };
    let form = form(*first);
    show_bytes(rt, coded)?;
    let text = std::str::from_utf8(value).unwrap_or("(no text)");
    println!(rt; ": the value {text}, {form}")
}

// An entry: encoding and data, then their length.
fn show_entry(rt: &HostRuntime, bytes: &[u8], value: &[u8]) -> io::Result<()> {
    let Some((length, coded)) = bytes.split_last() else {
        return Ok(());
    };
    show_coded(rt, coded, value)?;
    let size = *length;
    show_bytes(rt, &[size])?;
    println!(rt; ": the length of this encoding and data, {size}")
}

fn show_entries(rt: &HostRuntime, entries: &[u8], count: usize) -> io::Result<()> {
    let mut rest = entries;
    let mut out = [0; LONGEST_VALUE];
    for _ in 0..count {
        if let Some((n, span)) = decode(rest, &mut out) {
            show_entry(rt, &rest[0..span], &out[0..n])?;
            rest = &rest[span..];
        }
    }
    show_bytes(rt, rest)?;
    println!(rt; ": the end")
}

fn show_total(rt: &HostRuntime, bytes: [u8; 4]) -> io::Result<()> {
    show_bytes(rt, &bytes)?;
    let total = u32::from_le_bytes(bytes);
    println!(rt; ": the total length, {total}, the low byte first")
}

fn show_count(rt: &HostRuntime, bytes: [u8; 2]) -> io::Result<()> {
    show_bytes(rt, &bytes)?;
    let count = u16::from_le_bytes(bytes);
    println!(rt; ": the number of values, {count}, likewise")
}

fn show_pack(rt: &HostRuntime, bytes: &[u8]) -> io::Result<()> {
    let [a, b, c, d, e, f, entries @ ..] = bytes else {
        return Ok(());
    };
    show_total(rt, [*a, *b, *c, *d])?;
    show_count(rt, [*e, *f])?;
    show_entries(rt, entries, u16::from_le_bytes([*e, *f]) as usize)
}

// The first node of a list, in the tables of a quicklist.
pub(crate) fn show_first(
    rt: &HostRuntime,
    nodes: &[Node],
    lists: &[ListRecord],
    list: &str,
) -> io::Result<()> {
    let Some(place) = find(lists, list.as_bytes()) else {
        return println!(rt; "The quicklist has no list {list}.");
    };
    let number = lists[place].first as usize;
    if number == 0 || number > nodes.len() {
        return println!(rt; "The quicklist has no list {list}.");
    }
    println!(rt; "The first node of {list} in the quicklist, node {number}, is this listpack:")?;
    show_pack(rt, nodes[number - 1].as_bytes())
}
