use crate::stores;
use quicklist::{ListRecord, Node, prepare};
use std::process::Abort;
use std::test::*;
use store::ListEnds;

// A check that takes an empty store for three elements, on a quicklist.
macro_rules! on_three_nodes {
    ($rt:expr, $holds:path) => {{
        let mut nodes = [Node::blank(); 3];
        let mut lists = [ListRecord::blank(); 3];
        match prepare(&mut nodes, &mut lists) {
            Ok(mut store) => $holds($rt, &mut store),
            Err(_) => Err(Fail::new("three nodes and list records refused")),
        }
    }};
}

#[test]
fn ends(rt: HostRuntime) -> Result<(), Fail> {
    on_three_nodes!(&rt, stores::ends)
}

#[test]
fn refusals(rt: HostRuntime) -> Result<(), Fail> {
    on_three_nodes!(&rt, stores::refusals)
}

#[test]
fn full(rt: HostRuntime) -> Result<(), Fail> {
    on_three_nodes!(&rt, stores::full)
}

#[test]
fn whole_lists(rt: HostRuntime) -> Result<(), Fail> {
    on_three_nodes!(&rt, stores::whole_lists)
}

#[test]
fn keys(rt: HostRuntime) -> Result<(), Fail> {
    on_three_nodes!(&rt, stores::keys)
}

#[test]
fn again(rt: HostRuntime) -> Result<(), Fail> {
    on_three_nodes!(&rt, stores::again)
}

fn prepared(
    rt: &impl Abort,
    nodes: &mut [Node],
    lists: &mut [ListRecord],
    room: usize,
) -> Result<(), Fail> {
    match prepare(nodes, lists) {
        Ok(store) => {
            assert_eq!(rt; store.capacity(), room);
            Ok(())
        },
        Err(_) => Err(Fail::new("tables that fit are refused")),
    }
}

// The tables come back as long as they were.
fn refused(rt: &impl Abort, nodes: &mut [Node], lists: &mut [ListRecord]) -> Result<(), Fail> {
    let sizes = (nodes.len(), lists.len());
    match prepare(nodes, lists) {
        Ok(_) => Err(Fail::new("prepared over tables that do not fit")),
        Err(back) => {
            assert_eq!(rt; back.number(), 7);
            assert_eq!(rt; back.tables.nodes.len(), sizes.0);
            assert_eq!(rt; back.tables.lists.len(), sizes.1);
            Ok(())
        }
    }
}

#[test]
fn too_few_and_too_many(rt: HostRuntime) -> Result<(), Fail> {
    refused(&rt, &mut [], &mut [])?;
    refused(
        &rt,
        &mut [Node::blank(); 4097],
        &mut [ListRecord::blank(); 4097],
    )?;
    prepared(
        &rt,
        &mut [Node::blank(); 1],
        &mut [ListRecord::blank(); 1],
        1,
    )?;
    prepared(
        &rt,
        &mut [Node::blank(); 4096],
        &mut [ListRecord::blank(); 4096],
        4096,
    )
}

// Refused tables stay as they were.
#[test]
fn unequal_tables(rt: HostRuntime) -> Result<(), Fail> {
    let mut lists = [ListRecord::blank(); 3];
    lists[1].count = 5;
    refused(&rt, &mut [Node::blank(); 2], &mut lists)?;
    refused(&rt, &mut [Node::blank(); 4], &mut lists)?;
    assert_eq!(rt; lists[1].count, 5);
    prepared(&rt, &mut [Node::blank(); 3], &mut lists, 3)?;
    assert_eq!(rt; lists[1].count, 0);
    Ok(())
}
