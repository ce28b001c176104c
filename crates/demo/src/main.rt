// A day at a build farm, on a store for a few names: compilers push the names of finished objects on the lists of two
// programs, a link worker takes them in order, the store fills up, and what is left is listed. Each step is a sentence.
#![tactic(auto)]

use flat::{Record, prepare};
use std::io;
use store::{LONGEST_VALUE, ListEnds, Refusal, Side, WholeLists, keys, values};

// Kept: the reasons in the demo's own words beside `Display`, since the demo calls a value a name.
fn reason(refusal: Refusal) -> &'static str {
    match refusal {
        Refusal::LongKey => "the key is too long",
        Refusal::LongValue => "the name is too long",
        Refusal::Full => "the store is full",
        Refusal::OutOfRange => "there is no such place",
    }
}

fn text(bytes: &[u8]) -> &str {
    std::str::from_utf8(bytes).unwrap_or("(no text)")
}

fn push<S: WholeLists>(rt: &HostRuntime, store: &mut S, list: &str, name: &str) -> io::Result<()> {
    let done = store.push(Side::Right, list.as_bytes(), name.as_bytes());
    let len = store.len(list.as_bytes());
    let held = store.held();
    match done {
        Ok(()) => println!(rt;
            "A compiler pushes {name} on {list}: done, {list} has {len} and the store holds {held}."
        ),
        Err(refusal) => {
            let number = u8::from(refusal);
            let why = reason(refusal);
            println!(rt;
                "A compiler pushes {name} on {list}: refused with {number}, {why}; {list} still has {len} and the store holds {held}."
            )
        }
    }
}

fn take<S: WholeLists>(rt: &HostRuntime, store: &mut S, list: &str) -> io::Result<()> {
    let mut out = [0; LONGEST_VALUE];
    match store.pop(Side::Left, list.as_bytes(), &mut out) {
        Some(n) => {
            let name = text(&out[0..n]);
            let len = store.len(list.as_bytes());
            println!(rt; "The link worker takes {name} from {list}, which has {len} left.")
        }
        None => println!(rt; "The link worker finds {list} empty."),
    }
}

fn put_first<S: WholeLists>(
    rt: &HostRuntime,
    store: &mut S,
    list: &str,
    name: &str,
) -> io::Result<()> {
    match store.insert(list.as_bytes(), 0, name.as_bytes()) {
        Ok(()) => println!(rt;
            "A compiler has built {name} anew and puts it first on {list}: done."
        ),
        Err(refusal) => {
            let why = reason(refusal);
            println!(rt;
                "A compiler has built {name} anew and cannot put it first on {list}: {why}."
            )
        }
    }
}

fn show_list<S: WholeLists>(rt: &HostRuntime, store: &S, key: &[u8]) -> io::Result<()> {
    let list = text(key);
    print!(rt; "Left on {list}:")?;
    for value in values(store, key) {
        let name = text(value.as_bytes());
        print!(rt; " {name}")?;
    }
    println!(rt; ".")
}

fn show<S: WholeLists>(rt: &HostRuntime, store: &S) -> io::Result<()> {
    for key in keys(store) {
        show_list(rt, store, key.as_bytes())?;
    }
    let held = store.held();
    println!(rt; "The store holds {held} in all.")
}

fn morning<S: WholeLists>(rt: &HostRuntime, store: &mut S) -> io::Result<()> {
    let room = store.capacity();
    println!(rt; "A store for {room} object names is prepared.")?;
    push(rt, store, "motor", "limits.o")?;
    push(rt, store, "display", "font.o")?;
    push(rt, store, "motor", "ramp.o")?;
    push(rt, store, "display", "menu.o")?;
    push(rt, store, "motor", "brake.o")
}

fn afternoon<S: WholeLists>(rt: &HostRuntime, store: &mut S) -> io::Result<()> {
    take(rt, store, "motor")?;
    push(rt, store, "motor", "brake.o")?;
    take(rt, store, "motor")?;
    put_first(rt, store, "motor", "limits.o")?;
    take(rt, store, "motor")?;
    take(rt, store, "sensor")
}

fn main(rt: HostRuntime) -> io::Result<()> {
    let mut nothing: [Record; 0] = [];
    match prepare(&mut nothing) {
        Ok(_) => println!(rt; "A store over no records is prepared.")?,
        Err(refused) => {
            let number = refused.number();
            println!(rt; "A store over no records is refused with {number}.")?
        }
    }
    let mut table = [Record::blank(); 4];
    match prepare(&mut table) {
        Ok(mut store) => {
            morning(&rt, &mut store)?;
            afternoon(&rt, &mut store)?;
            show(&rt, &store)
        }
        Err(refused) => {
            let number = refused.number();
            println!(rt; "The store is refused with {number}.")
        }
    }
}
