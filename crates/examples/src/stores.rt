use std::process::Abort;
use std::test::*;
use store::{LONGEST_KEY, LONGEST_VALUE, ListEnds, Refusal, Side, WholeLists, room_left};

// The list of a key is just these values.
pub(crate) fn holds<S: WholeLists>(
    rt: &impl Abort,
    store: &S,
    key: &[u8],
    values: &[&[u8]],
) -> Result<(), Fail> {
    assert_eq!(rt; store.len(key), values.len());
    let mut out = [0; LONGEST_VALUE];
    for (i, v) in values.iter().enumerate() {
        let n = store.value_at(key, i, &mut out).ok_or("no value there")?;
        assert!(rt; &out[0..n] == *v);
    }
    assert_eq!(rt; store.value_at(key, values.len(), &mut out), None);
    Ok(())
}

// Kept: the tests compare the numbers that the project's rules give to refusals.
fn number(r: Result<(), Refusal>) -> u8 {
    match r {
        Ok(()) => 0,
        Err(refusal) => u8::from(refusal),
    }
}

// Each of what follows takes an empty store for three elements.

// Pushes and pops at both ends; bytes behind a copied value stay.
pub(crate) fn ends<S: WholeLists>(rt: &impl Abort, store: &mut S) -> Result<(), Fail> {
    assert_eq!(rt; store.capacity(), 3);
    assert_eq!(rt; room_left(store), 3);
    assert_eq!(rt; number(store.push(Side::Right, b"k", b"b")), 0);
    assert_eq!(rt; number(store.push(Side::Left, b"k", b"a")), 0);
    assert_eq!(rt; number(store.push(Side::Right, b"k", b"c")), 0);
    holds(rt, store, b"k", &[b"a", b"b", b"c"])?;
    let mut out = [9; LONGEST_VALUE];
    assert_eq!(rt; store.pop(Side::Right, b"k", &mut out), Some(1));
    assert_eq!(rt; out[0], b'c');
    assert_eq!(rt; out[1], 9);
    assert_eq!(rt; store.pop(Side::Left, b"k", &mut out), Some(1));
    assert_eq!(rt; out[0], b'a');
    assert_eq!(rt; room_left(store), 2);
    holds(rt, store, b"k", &[b"b"])
}

// Keys and values of the longest length go in, longer ones are refused.
pub(crate) fn refusals<S: WholeLists>(rt: &impl Abort, store: &mut S) -> Result<(), Fail> {
    assert_eq!(rt;
        number(store.push(Side::Left, &[1; LONGEST_KEY + 1], b"v")),
        1
    );
    assert_eq!(rt;
        number(store.push(Side::Left, &[1; LONGEST_KEY], &[2; LONGEST_VALUE + 1])),
        2
    );
    assert_eq!(rt; store.held(), 0);
    assert_eq!(rt;
        number(store.push(Side::Left, &[1; LONGEST_KEY], &[2; LONGEST_VALUE])),
        0
    );
    holds(rt, store, &[1; LONGEST_KEY], &[&[2; LONGEST_VALUE]])
}

// A full store refuses, whatever the index, and nothing changes.
pub(crate) fn full<S: WholeLists>(rt: &impl Abort, store: &mut S) -> Result<(), Fail> {
    assert_eq!(rt; number(store.push(Side::Left, b"a", b"1")), 0);
    assert_eq!(rt; number(store.push(Side::Left, b"b", b"2")), 0);
    assert_eq!(rt; number(store.push(Side::Left, b"", b"")), 0);
    assert_eq!(rt; number(store.push(Side::Left, b"a", b"4")), 3);
    assert_eq!(rt; number(store.insert(b"a", 9, b"4")), 3);
    assert_eq!(rt; store.held(), 3);
    holds(rt, store, b"a", &[b"1"])?;
    holds(rt, store, b"", &[b""])
}

// Changes at an index; the length is an index for an insert alone.
pub(crate) fn whole_lists<S: WholeLists>(rt: &impl Abort, store: &mut S) -> Result<(), Fail> {
    assert_eq!(rt; number(store.insert(b"k", 1, b"x")), 4);
    assert_eq!(rt; number(store.insert(b"k", 0, b"a")), 0);
    assert_eq!(rt; number(store.insert(b"k", 1, b"c")), 0);
    assert_eq!(rt; number(store.insert(b"k", 1, b"b")), 0);
    holds(rt, store, b"k", &[b"a", b"b", b"c"])?;
    assert_eq!(rt; number(store.set(b"k", 3, b"z")), 4);
    assert_eq!(rt; number(store.set(b"k", 1, b"z")), 0);
    assert_eq!(rt; number(store.remove(b"k", 3)), 4);
    assert_eq!(rt; number(store.remove(b"k", 0)), 0);
    holds(rt, store, b"k", &[b"z", b"c"])
}

fn key_is<S: WholeLists>(rt: &impl Abort, store: &S, rank: usize, key: &[u8]) -> Result<(), Fail> {
    let mut out = [0; LONGEST_KEY];
    let n = store.key_at(rank, &mut out).ok_or("no key there")?;
    assert!(rt; &out[0..n] == key);
    Ok(())
}

// Keys come in ascending order, each once, and only while their list has an element.
pub(crate) fn keys<S: WholeLists>(rt: &impl Abort, store: &mut S) -> Result<(), Fail> {
    assert_eq!(rt; number(store.push(Side::Left, b"b", b"1")), 0);
    assert_eq!(rt; number(store.push(Side::Left, b"aa", b"2")), 0);
    assert_eq!(rt; number(store.push(Side::Right, b"b", b"3")), 0);
    key_is(rt, store, 0, b"aa")?;
    key_is(rt, store, 1, b"b")?;
    let mut out = [5; LONGEST_KEY];
    assert_eq!(rt; store.key_at(2, &mut out), None);
    assert_eq!(rt; out[0], 5);
    assert_eq!(rt; number(store.remove(b"aa", 0)), 0);
    key_is(rt, store, 0, b"b")
}

fn fill<S: WholeLists>(rt: &impl Abort, store: &mut S, round: u8) -> Result<(), Fail> {
    assert_eq!(rt;
        number(store.push(Side::Right, &[round], &[round; LONGEST_VALUE])),
        0
    );
    assert_eq!(rt; number(store.push(Side::Left, &[round, 1], b"-7")), 0);
    assert_eq!(rt; number(store.insert(&[round, 2], 0, b"")), 0);
    assert_eq!(rt; number(store.push(Side::Right, &[round, 3], b"more")), 3);
    key_is(rt, store, 0, &[round])?;
    key_is(rt, store, 2, &[round, 2])?;
    holds(rt, store, &[round, 1], &[b"-7"])
}

// Many keys come and go: a store filled and emptied takes as much again.
pub(crate) fn again<S: WholeLists>(rt: &impl Abort, store: &mut S) -> Result<(), Fail> {
    let mut out = [0; LONGEST_VALUE];
    for round in 0..40 {
        fill(rt, store, round)?;
        assert_eq!(rt;
            store.pop(Side::Left, &[round], &mut out),
            Some(LONGEST_VALUE)
        );
        assert_eq!(rt; out[63], round);
        assert_eq!(rt; store.pop(Side::Right, &[round, 2], &mut out), Some(0));
        assert_eq!(rt; number(store.remove(&[round, 1], 0)), 0);
        assert_eq!(rt; store.held(), 0);
        assert_eq!(rt; store.key_at(0, &mut [0; LONGEST_KEY]), None);
    }
    Ok(())
}
