// The day: compilers push the names of finished objects on the lists of two programs, and on a third list what has failed and
// with which status; a link worker takes names in order, the store fills up, and what is left is listed. Each step is a sentence.
// Kept: beside the demo's functions of the same names, since the sentences differ, and here they go into a text that is compared; `text` is one line, and the two programs share no crate of their own.
use std::alloc::AllocError;
use std::fmt::Write;
use store::{LONGEST_VALUE, ListEnds, Refusal, Side, WholeLists, keys, values};

fn text(bytes: &[u8]) -> &str {
    std::str::from_utf8(bytes).unwrap_or("(no text)")
}

fn tell_refusal(day: &mut String, refusal: Refusal) -> Result<(), AllocError> {
    let number = u8::from(refusal);
    write!(day, "refused with {number}, {refusal}")
}

fn tell_done(day: &mut String, done: Result<(), Refusal>) -> Result<(), AllocError> {
    match done {
        Ok(()) => write!(day, "done"),
        Err(e) => tell_refusal(day, e),
    }
}

fn tell_counts<S: WholeLists>(day: &mut String, store: &S, list: &str) -> Result<(), AllocError> {
    let len = store.len(list.as_bytes());
    let held = store.held();
    writeln!(day, "; {list} has {len} and the store holds {held}.")
}

fn push<S: WholeLists>(
    day: &mut String,
    store: &mut S,
    list: &str,
    value: &str,
) -> Result<(), AllocError> {
    let done = store.push(Side::Right, list.as_bytes(), value.as_bytes());
    write!(day, "A compiler pushes {value} on {list}: ")?;
    tell_done(day, done)?;
    tell_counts(day, store, list)
}

fn take<S: WholeLists>(day: &mut String, store: &mut S, list: &str) -> Result<(), AllocError> {
    let mut out = [0; LONGEST_VALUE];
    match store.pop(Side::Left, list.as_bytes(), &mut out) {
        Some(n) => {
            let value = text(&out[0..n]);
            let len = store.len(list.as_bytes());
            writeln!(
                day,
                "The link worker takes {value} from {list}, which has {len} left."
            )
        }
        None => writeln!(day, "The link worker finds {list} empty."),
    }
}

fn put_first<S: WholeLists>(
    day: &mut String,
    store: &mut S,
    list: &str,
    value: &str,
) -> Result<(), AllocError> {
    let done = store.insert(list.as_bytes(), 0, value.as_bytes());
    write!(
        day,
        "A compiler puts {value}, built anew, first on {list}: "
    )?;
    tell_done(day, done)?;
    tell_counts(day, store, list)
}

fn tell_list<S: WholeLists>(day: &mut String, store: &S, key: &[u8]) -> Result<(), AllocError> {
    let list = text(key);
    write!(day, "Left on {list}:")?;
    for value in values(store, key) {
        let value = text(value.as_bytes());
        write!(day, " {value}")?;
    }
    writeln!(day, ".")
}

fn tell<S: WholeLists>(day: &mut String, store: &S) -> Result<(), AllocError> {
    for key in keys(store) {
        tell_list(day, store, key.as_bytes())?;
    }
    let held = store.held();
    writeln!(day, "The store holds {held} in all.")
}

fn morning<S: WholeLists>(day: &mut String, store: &mut S) -> Result<(), AllocError> {
    push(day, store, "motor", "limits.o")?;
    push(day, store, "display", "font.o")?;
    push(day, store, "failed", "brake.o")?;
    push(day, store, "failed", "-11")
}

fn noon<S: WholeLists>(day: &mut String, store: &mut S) -> Result<(), AllocError> {
    push(day, store, "motor", "ramp.o")?;
    push(day, store, "display", "menu.o")?;
    push(day, store, "motor", "gears.o")?;
    take(day, store, "motor")
}

fn afternoon<S: WholeLists>(day: &mut String, store: &mut S) -> Result<(), AllocError> {
    take(day, store, "motor")?;
    put_first(day, store, "motor", "limits.o")?;
    push(day, store, "failed", "127")?;
    take(day, store, "sensor")
}

// The whole day, on an empty store.
pub(crate) fn work<S: WholeLists>(day: &mut String, store: &mut S) -> Result<(), AllocError> {
    let room = store.capacity();
    writeln!(day, "A store for {room} elements is prepared.")?;
    morning(day, store)?;
    noon(day, store)?;
    afternoon(day, store)?;
    tell(day, store)
}
