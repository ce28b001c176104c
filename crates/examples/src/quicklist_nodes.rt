use crate::listpacks::packed;
use quicklist::{ListRecord, Node, prepare};
use records::find;
use std::process::Abort;
use std::test::*;
use store::{LONGEST_VALUE, ListEnds, Side, WholeLists};

// Values of 64 bytes, of which a node takes seven, and two short ones: beside the seven a node takes `SHORT`, and has 508 bytes
// then; with `OVER` it would have 509.
const A: &[u8] = &[b'a'; LONGEST_VALUE];

const B: &[u8] = &[b'b'; LONGEST_VALUE];

const C: &[u8] = &[b'c'; LONGEST_VALUE];

const SHORT: &[u8] = &[b's'; 30];

const OVER: &[u8] = &[b'o'; 31];

const SEVEN: &[&[u8]] = &[A, A, A, A, A, A, A];

const FULL: &[&[u8]] = &[A, A, A, A, A, A, A, SHORT];

const CHANGED: &[&[u8]] = &[A, A, B, A, A, A, A, SHORT];

// Kept: changes as values, since the tests are tables of them; closures over every store could not stand in one slice.
// A change of the list of the key `k`.
#[derive(Clone, Copy)]
enum Step {
    Push(Side, &'static [u8]),
    Insert(usize, &'static [u8]),
    Set(usize, &'static [u8]),
    Remove(usize),
}

const FILL: Step = Step::Push(Side::Right, SHORT);

fn take_steps<S: WholeLists>(rt: &impl Abort, store: &mut S, steps: &[Step]) -> Result<(), Fail> {
    for step in steps {
        let done = match *step {
            Step::Push(side, value) => store.push(side, b"k", value),
            Step::Insert(index, value) => store.insert(b"k", index, value),
            Step::Set(index, value) => store.set(b"k", index, value),
            Step::Remove(index) => store.remove(b"k", index),
        };
        assert!(rt; done.is_ok());
    }
    Ok(())
}

// How many nodes of the table hold values.
fn used(nodes: &[Node]) -> usize {
    nodes
        .iter()
        .filter(|node| node.as_bytes().len() > 7)
        .count()
}

fn node_is(rt: &impl Abort, nodes: &[Node], number: u16, values: &[&[u8]]) -> Result<(), Fail> {
    assert!(rt; number > 0 && number as usize <= nodes.len());
    assert!(rt; nodes[number as usize - 1].as_bytes() == packed(values).as_bytes());
    Ok(())
}

// On a list of seven values `A`, in one node, these steps leave a list whose first and last node hold just these values, and so
// many nodes in use.
fn leave(
    rt: &impl Abort,
    steps: &[Step],
    first: &[&[u8]],
    last: &[&[u8]],
    count: usize,
) -> Result<(), Fail> {
    let mut nodes = [Node::blank(); 12];
    let mut lists = [ListRecord::blank(); 12];
    match prepare(&mut nodes, &mut lists) {
        Ok(mut store) => {
            take_steps(rt, &mut store, &[Step::Push(Side::Right, A); 7])?;
            take_steps(rt, &mut store, steps)?
        }
        Err(_) => return Err(Fail::new("12 nodes and list records refused")),
    }
    assert_eq!(rt; used(&nodes), count);
    let e = find(&lists, b"k").ok_or("no list")?;
    node_is(rt, &nodes, lists[e].first, first)?;
    node_is(rt, &nodes, lists[e].last, last)
}

// A node is opened exactly when the end node has no room.
#[test]
fn push(rt: HostRuntime) -> Result<(), Fail> {
    leave(&rt, &[], SEVEN, SEVEN, 1)?;
    leave(&rt, &[Step::Push(Side::Right, B)], SEVEN, &[B], 2)?;
    leave(&rt, &[Step::Push(Side::Left, B)], &[B], SEVEN, 2)?;
    leave(&rt, &[FILL], FULL, FULL, 1)?;
    leave(&rt, &[Step::Push(Side::Right, OVER)], SEVEN, &[OVER], 2)
}

// A full node is cut where the value goes in; the left half takes it if it can.
#[test]
fn insert(rt: HostRuntime) -> Result<(), Fail> {
    leave(
        &rt,
        &[FILL, Step::Insert(3, B)],
        &[A, A, A, B],
        &[A, A, A, A, SHORT],
        2,
    )?;
    leave(&rt, &[FILL, Step::Insert(7, B)], SEVEN, &[B, SHORT], 2)?;
    leave(&rt, &[FILL, Step::Insert(0, B)], &[B], FULL, 2)?;
    leave(&rt, &[FILL, Step::Insert(8, B)], FULL, &[B], 2)
}

// A value is replaced in its node, or, without room there, removed and the new one inserted.
#[test]
fn set(rt: HostRuntime) -> Result<(), Fail> {
    leave(&rt, &[FILL, Step::Set(2, B)], CHANGED, CHANGED, 1)?;
    leave(&rt, &[FILL, Step::Set(7, OVER)], SEVEN, &[OVER], 2)?;
    leave(
        &rt,
        &[Step::Insert(3, SHORT), Step::Set(3, B)],
        &[A, A, A, B],
        &[A, A, A, A],
        2,
    )?;
    leave(
        &rt,
        &[FILL, Step::Push(Side::Right, B), Step::Set(7, C)],
        SEVEN,
        &[C, B],
        2,
    )
}

// A node without values is free; others stay as they are.
#[test]
fn remove(rt: HostRuntime) -> Result<(), Fail> {
    leave(
        &rt,
        &[Step::Push(Side::Right, B), Step::Remove(7)],
        SEVEN,
        SEVEN,
        1,
    )?;
    leave(
        &rt,
        &[Step::Push(Side::Left, B), Step::Remove(0)],
        SEVEN,
        SEVEN,
        1,
    )?;
    leave(
        &rt,
        &[Step::Push(Side::Right, B), Step::Remove(0)],
        &[A, A, A, A, A, A],
        &[B],
        2,
    )?;
    let emptied = [
        Step::Push(Side::Right, B),
        Step::Remove(0),
        Step::Remove(0),
        Step::Remove(0),
        Step::Remove(0),
        Step::Remove(0),
        Step::Remove(0),
        Step::Remove(0),
    ];
    leave(&rt, &emptied, &[B], &[B], 1)
}

// Twelve pushes fill the store; pops from the left give the values in this order.
fn fill_and_empty<S: WholeLists>(
    rt: &impl Abort,
    store: &mut S,
    side: Side,
    order: [u8; 12],
) -> Result<(), Fail> {
    for i in 0..12 {
        assert!(rt; store.push(side, b"k", &[i; LONGEST_VALUE]).is_ok());
    }
    assert!(rt; store.push(side, b"k", b"").is_err());
    let mut out = [0; LONGEST_VALUE];
    for i in order {
        assert_eq!(rt; store.pop(Side::Left, b"k", &mut out), Some(LONGEST_VALUE));
        assert!(rt; out == [i; LONGEST_VALUE]);
    }
    assert_eq!(rt; store.held(), 0);
    Ok(())
}

// Freed nodes and list records are used again.
#[test]
fn filled_again(rt: HostRuntime) -> Result<(), Fail> {
    let mut nodes = [Node::blank(); 12];
    let mut lists = [ListRecord::blank(); 12];
    let ascending = [0, 1, 2, 3, 4, 5, 6, 7, 8, 9, 10, 11];
    let descending = [11, 10, 9, 8, 7, 6, 5, 4, 3, 2, 1, 0];
    match prepare(&mut nodes, &mut lists) {
        Ok(mut store) => {
            for _round in 0..20 {
                fill_and_empty(&rt, &mut store, Side::Right, ascending)?;
                fill_and_empty(&rt, &mut store, Side::Left, descending)?;
            }
        }
        Err(_) => return Err(Fail::new("12 nodes and list records refused")),
    }
    assert_eq!(rt; used(&nodes), 0);
    Ok(())
}
