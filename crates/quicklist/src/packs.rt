// The values of one node.
ghost use Rattle.std.specs.Prelude.{◌≡◌, ◌≤◌, [], ◌∷◌, ◌++◌, length, take, drop, if◌then◌else◌};
ghost use Rattle.store.specs.Limits.{longest_value};
ghost use Rattle.store.specs.Answers.{value_in};
ghost use Rattle.listpack.specs.Packs.{pack, values_in, takes};

use crate::table::Node;
use listpack::Listpack;
use store::ValueRow;

impl Node {
    // A node without values and links, to fill a table with.
    pub fn blank() -> Node
        ensures pack { values_in result.pack ≡ [] }
        ensures next { result.next ≡ 0 }
        ensures prev { result.prev ≡ 0 }
    {
        Node {
            next: 0,
            prev: 0,
            pack: Listpack::empty(),
        }
    }

    // The bytes of its listpack.
    pub fn as_bytes(&self) -> &[u8]
        ensures { result.now ≡ pack (values_in self.now.pack) }
    {
        self.pack.as_bytes()
    }
}

// A value that is short enough for a node.
#[derive(Clone, Copy)]
pub(crate) struct ShortValue<'a> {
    pub(crate) bytes: &'a [u8],
    ghost short: { length bytes.now ≤ longest_value },
}

impl<'a> From<&'a ValueRow> for ShortValue<'a> {
    ghost from_gives = { λ row value. value.bytes.now ≡ value_in row.now };

    fn from(row: &'a ValueRow) -> ShortValue<'a> {
        ShortValue {
            bytes: row.as_bytes(),
        }
    }
}

// Cuts a listpack before its value at j and adds a value there: at its end, if it fits, else in front of the part cut off, which is told.
pub(crate) fn divide(pack: &mut Listpack, j: usize, value: &ShortValue<'_>) -> Listpack
    requires there { j ≤ length (values_in pack.old) }
    ensures left { values_in pack.new ≡ (if takes (take j (values_in pack.old)) value.now.bytes.now then take j (values_in pack.old) ++ value.now.bytes.now ∷ [] else take j (values_in pack.old)) }
    ensures right { values_in result ≡ (if takes (take j (values_in pack.old)) value.now.bytes.now then drop j (values_in pack.old) else value.now.bytes.now ∷ drop j (values_in pack.old)) }
{
    let mut right = pack.split_off(j).unwrap();
    if pack.append(value.bytes).is_err() {
        right.prepend(value.bytes).unwrap();
    }
    right
}
