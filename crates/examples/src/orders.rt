use order::{KeyRow, TotalOrder, least, least_after};
use std::cmp::Ordering;
use std::test::*;

fn row(key: &[u8]) -> KeyRow {
    KeyRow::try_from(key).unwrap_or(KeyRow::empty())
}

fn is_less(a: &[u8], b: &[u8]) -> bool {
    row(a).compare(&row(b)) == Ordering::Less
}

#[test]
fn keys_ascend_byte_by_byte(rt: HostRuntime) -> Result<(), Fail> {
    assert!(rt; is_less(b"", b"a"));
    assert!(rt; is_less(b"a", b"aa"));
    assert!(rt; is_less(b"aa", b"b"));
    assert!(rt; is_less(&[127], &[128]));
    assert!(rt; !is_less(b"b", b"ab"));
    assert!(rt; !is_less(b"a", b"a"));
    Ok(())
}

#[test]
fn a_row_reads_its_length_within_32(rt: HostRuntime) -> Result<(), Fail> {
    let long = KeyRow {
        len: 200,
        bytes: [7; 32],
    };
    assert_eq!(rt; long.as_bytes().len(), 32);
    assert!(rt; KeyRow::try_from(&[7; 33][..]).is_err());
    assert!(rt; long.compare(&row(&[7; 32])) == Ordering::Equal);
    Ok(())
}

#[test]
fn bytes_past_the_key_do_not_matter(rt: HostRuntime) -> Result<(), Fail> {
    let one = KeyRow {
        len: 1,
        bytes: [9; 32],
    };
    assert!(rt; one.compare(&row(&[9])) == Ordering::Equal);
    Ok(())
}

#[test]
fn the_first_least_is_found(rt: HostRuntime) -> Result<(), Fail> {
    let rows = [row(b"motor"), row(b"app"), row(b"menu"), row(b"app")];
    assert_eq!(rt; least(&rows), Some(1));
    assert_eq!(rt; least_after(&rows, 1), Some(2));
    assert_eq!(rt; least_after(&rows, 2), Some(0));
    assert_eq!(rt; least_after(&rows, 0), None);
    assert_eq!(rt; least_after(&rows, 4), None);
    assert_eq!(rt; least(&rows[0..0]), None);
    Ok(())
}
