use crate::stores;
use flat::{Record, prepare};
use std::test::*;
use store::ListEnds;

// A check that takes an empty store for three elements, on a flat one.
macro_rules! on_three_records {
    ($rt:expr, $holds:path) => {{
        let mut table = [Record::blank(); 3];
        match prepare(&mut table) {
            Ok(mut store) => $holds($rt, &mut store),
            Err(_) => Err(Fail::new("three records refused")),
        }
    }};
}

#[test]
fn ends(rt: HostRuntime) -> Result<(), Fail> {
    on_three_records!(&rt, stores::ends)
}

#[test]
fn refusals(rt: HostRuntime) -> Result<(), Fail> {
    on_three_records!(&rt, stores::refusals)
}

#[test]
fn full(rt: HostRuntime) -> Result<(), Fail> {
    on_three_records!(&rt, stores::full)
}

#[test]
fn whole_lists(rt: HostRuntime) -> Result<(), Fail> {
    on_three_records!(&rt, stores::whole_lists)
}

#[test]
fn keys(rt: HostRuntime) -> Result<(), Fail> {
    on_three_records!(&rt, stores::keys)
}

#[test]
fn again(rt: HostRuntime) -> Result<(), Fail> {
    on_three_records!(&rt, stores::again)
}

#[test]
fn too_few_and_too_many(rt: HostRuntime) -> Result<(), Fail> {
    let mut none: [Record; 0] = [];
    match prepare(&mut none) {
        Ok(_) => return Err(Fail::new("prepared over no records")),
        Err(refused) => assert_eq!(rt; refused.number(), 7),
    }
    let mut most = [Record::blank(); 4096];
    match prepare(&mut most) {
        Ok(store) => assert_eq!(rt; store.capacity(), 4096),
        Err(_) => return Err(Fail::new("4,096 records refused")),
    }
    let mut many = [Record::blank(); 4097];
    match prepare(&mut many) {
        Ok(_) => Err(Fail::new("prepared over 4,097 records")),
        Err(refused) => {
            assert_eq!(rt; refused.number(), 7);
            Ok(())
        },
    }
}
