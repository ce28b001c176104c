use listpack::{Listpack, MOST_BYTES};
use std::process::Abort;
use std::test::*;
use store::LONGEST_VALUE;

// The listpack of these values.
pub(crate) fn packed(values: &[&[u8]]) -> Listpack {
    let mut pack = Listpack::empty();
    for v in values {
        let _ = pack.append(*v);
    }
    pack
}

fn has_bytes(rt: &impl Abort, pack: &Listpack, bytes: &[u8]) -> Result<(), Fail> {
    assert!(rt; pack.as_bytes() == bytes);
    Ok(())
}

fn has(rt: &impl Abort, pack: &Listpack, values: &[&[u8]]) -> Result<(), Fail> {
    assert_eq!(rt; pack.count(), values.len());
    has_bytes(rt, pack, packed(values).as_bytes())?;
    let mut out = [0; LONGEST_VALUE];
    for (i, v) in values.iter().enumerate() {
        let n = pack.value_at(i, &mut out).ok_or("no value there")?;
        assert!(rt; &out[0..n] == *v);
    }
    assert_eq!(rt; pack.value_at(values.len(), &mut out), None);
    Ok(())
}

// Total length and count, low bytes first, the entries, and FF.
#[test]
fn bytes(rt: HostRuntime) -> Result<(), Fail> {
    has_bytes(&rt, &packed(&[]), &[7, 0, 0, 0, 0, 0, 0xFF])?;
    has_bytes(
        &rt,
        &packed(&[b"127", b"-1", b"007"]),
        &[
            0x11, 0, 0, 0, 3, 0, 0x7F, 1, 0xDF, 0xFF, 2, 0x83, 0x30, 0x30, 0x37, 4, 0xFF,
        ],
    )?;
    has_bytes(
        &rt,
        &packed(&[b"a", b"127"]),
        &[0x0C, 0, 0, 0, 2, 0, 0x81, 0x61, 2, 0x7F, 1, 0xFF],
    )
}

#[test]
fn changes(rt: HostRuntime) -> Result<(), Fail> {
    let mut pack = Listpack::empty();
    assert!(rt; pack.append(b"b").is_ok());
    assert!(rt; pack.prepend(b"a").is_ok());
    assert!(rt; pack.insert(2, b"4096").is_ok());
    assert!(rt; pack.insert(2, b"").is_ok());
    has(&rt, &pack, &[b"a", b"b", b"", b"4096"])?;
    assert!(rt; pack.insert(5, b"x").is_err());
    assert!(rt; pack.replace(4, b"x").is_err());
    assert!(rt; pack.remove(4).is_err());
    has(&rt, &pack, &[b"a", b"b", b"", b"4096"])?;
    assert!(rt; pack.replace(1, b"-0").is_ok());
    assert!(rt; pack.remove(0).is_ok());
    has(&rt, &pack, &[b"-0", b"", b"4096"])
}

// The values from an index on are parted from those before it.
fn parts(rt: &impl Abort, index: usize, front: &[&[u8]], back: &[&[u8]]) -> Result<(), Fail> {
    let mut pack = packed(&[b"a", b"12", b"c"]);
    match pack.split_off(index) {
        Ok(parted) => has(rt, &parted, back)?,
        Err(_) => return Err(Fail::new("not parted")),
    }
    has(rt, &pack, front)
}

#[test]
fn split_off(rt: HostRuntime) -> Result<(), Fail> {
    parts(&rt, 0, &[], &[b"a", b"12", b"c"])?;
    parts(&rt, 1, &[b"a"], &[b"12", b"c"])?;
    parts(&rt, 3, &[b"a", b"12", b"c"], &[])?;
    let mut pack = packed(&[b"a"]);
    assert!(rt; pack.split_off(2).is_err());
    has(&rt, &pack, &[b"a"])
}

// Seven values of 64 bytes leave room for an entry of 32 bytes, which a text of 30 bytes has.
#[test]
fn just_full(rt: HostRuntime) -> Result<(), Fail> {
    let long: &[u8] = &[b'a'; LONGEST_VALUE];
    let mut pack = packed(&[long; 7]);
    assert_eq!(rt; pack.as_bytes().len(), 476);
    assert!(rt; pack.append(&[b'x'; 31]).is_err());
    assert!(rt; !pack.takes(&[b'x'; 31]));
    assert_eq!(rt; pack.as_bytes().len(), 476);
    assert!(rt; pack.takes(&[b'x'; 30]));
    assert!(rt; pack.append(&[b'x'; 30]).is_ok());
    assert_eq!(rt; pack.as_bytes().len(), MOST_BYTES);
    let full = pack;
    assert!(rt; pack.append(b"").is_err());
    assert!(rt; pack.prepend(b"0").is_err());
    assert!(rt; pack.insert(3, b"0").is_err());
    assert!(rt; pack.replace(7, &[b'x'; 31]).is_err());
    assert!(rt; pack.as_bytes() == full.as_bytes());
    assert!(rt; pack.replace(7, &[b'y'; 30]).is_ok());
    assert!(rt; pack.replace(0, &[b'y'; LONGEST_VALUE]).is_ok());
    assert_eq!(rt; pack.as_bytes().len(), MOST_BYTES);
    Ok(())
}

#[test]
fn most_values(rt: HostRuntime) -> Result<(), Fail> {
    let mut pack = Listpack::empty();
    assert!(rt; pack.append(&[b'x'; LONGEST_VALUE + 1]).is_err());
    for _i in 0..250 {
        assert!(rt; pack.append(b"").is_ok());
    }
    assert!(rt; pack.append(b"").is_err());
    assert_eq!(rt; pack.count(), 250);
    assert_eq!(rt; pack.as_bytes().len(), 507);
    Ok(())
}
