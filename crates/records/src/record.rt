// The record of a list, as a plain row of a table.
use order::KeyRow;

// A list: its key, the numbers of its first and last node, and how many elements it has. With no first node (0) the record is free, and `next` is the number of the next free one.
// Kept: 0 stands for no node and no record, since rows of a lent table are plain numbers that count from 1, and zero ends a chain by the project's rules.
#[derive(Clone, Copy)]
pub struct ListRecord {
    pub name: KeyRow,
    pub first: u16,
    pub last: u16,
    pub count: u16,
    pub next: u16,
}
