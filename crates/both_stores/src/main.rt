// A day at a build farm, worked through on a flat store and on a quicklist: what is said of the one is compared with what is said
// of the other. Then the bytes of one node of the quicklist, each part with its meaning.
#![tactic(auto)]

use flat::Record;
use quicklist::{ListRecord, Node};
use std::{fmt, io};

mod day;
mod node;

// How many elements either store is made for.
const ROOM: usize = 6;

fn refuse_records(rt: &HostRuntime) -> io::Result<()> {
    let mut none: [Record; 0] = [];
    if let Err(refused) = flat::prepare(&mut none) {
        let number = refused.number();
        println!(rt; "A flat store over no records is refused with {number}.")?;
    }
    Ok(())
}

fn refuse_nodes(rt: &HostRuntime) -> io::Result<()> {
    let mut nodes = [Node::blank(); 2];
    let mut lists = [ListRecord::blank(); 1];
    if let Err(refused) = quicklist::prepare(&mut nodes, &mut lists) {
        let number = refused.number();
        println!(rt; "A quicklist over two nodes and one list record is refused with {number}.")?;
    }
    Ok(())
}

// Kept: this and the next differ in the tables and in `prepare`, which is all that they do: one function would be handed both, and nothing would be left in it.
// The day on a flat store, as text.
fn flat_day(day: &mut String) -> fmt::Result {
    let mut table = [Record::blank(); ROOM];
    match flat::prepare(&mut table) {
        Ok(mut store) => Ok(day::work(day, &mut store)?),
        Err(_) => Err(fmt::Error),
    }
}

// The same on a quicklist over these tables.
fn quicklist_day(
    day: &mut String,
    nodes: &mut [Node; ROOM],
    lists: &mut [ListRecord; ROOM],
) -> fmt::Result {
    match quicklist::prepare(nodes, lists) {
        Ok(mut store) => Ok(day::work(day, &mut store)?),
        Err(_) => Err(fmt::Error),
    }
}

fn line(day: &str, i: usize) -> &str {
    day.lines().nth(i).unwrap_or("nothing.")
}

// Says where the stores do not tell the same.
fn show_differences(rt: &HostRuntime, flat: &str, quicklist: &str) -> io::Result<()> {
    // Kept: `zip` over both, each with `repeat` behind it, was tried, and the goal that this chain ends stayed open.
    for i in 0..flat.lines().count().max(quicklist.lines().count()) {
        let one = line(flat, i);
        let other = line(quicklist, i);
        if one != other {
            println!(rt; "The flat store says: {one} The quicklist says: {other}")?;
        }
    }
    Ok(())
}

fn compare(rt: &HostRuntime, flat: &str, quicklist: &str) -> io::Result<()> {
    if flat == quicklist {
        let lines = flat.lines().count();
        return println!(rt;
            "The same day on a quicklist has the same {lines} sentences: the two stores agree.\n"
        );
    }
    println!(rt; "The same day on a quicklist has other sentences: the two stores differ.")?;
    show_differences(rt, flat, quicklist)
}

fn main(rt: HostRuntime) -> io::Result<()> {
    refuse_records(&rt)?;
    refuse_nodes(&rt)?;
    let mut flat = String::new(rt.alloc());
    flat_day(&mut flat)?;
    println!(rt; "\nA day on a flat store:\n{flat}")?;
    let mut nodes = [Node::blank(); ROOM];
    let mut lists = [ListRecord::blank(); ROOM];
    let mut quicklist = String::new(rt.alloc());
    quicklist_day(&mut quicklist, &mut nodes, &mut lists)?;
    compare(&rt, flat.as_str(), quicklist.as_str())?;
    node::show_first(&rt, &nodes, &lists, "failed")
}
