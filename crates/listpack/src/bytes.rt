// What is written to the bytes of a listpack.
ghost use Rattle.std.specs.Prelude.{◌≡◌, ◌+◌, ◌-◌, ◌≤◌, ◌++◌, length, take, drop};
ghost use Rattle.listpack.specs.Layout.{most_bytes, header};
ghost use Rattle.listpack.specs.Places.{spliced};

use crate::pack::MOST_BYTES;

// Puts `new` in the place of the bytes from `from` up to `to`; those behind, up to `end`, move along.
pub(crate) fn splice(bytes: &mut [u8; MOST_BYTES], from: usize, to: usize, new: &[u8], end: usize)
    requires order { from ≤ to }
    requires within { to ≤ end }
    requires most { end ≤ most_bytes }
    requires room { from + length new.now + (end - to) ≤ most_bytes }
    ensures { take (from + length new.now + (end - to)) bytes.new ≡ spliced (take end bytes.old) from to new.now }
{
    bytes.copy_within(to..end, from + new.len());
    bytes[from..from + new.len()].copy_from_slice(new);
}

// Writes what stands before the entries.
pub(crate) fn write_header(bytes: &mut [u8; MOST_BYTES], size: usize, count: usize)
    requires size { size ≤ most_bytes }
    requires count { count ≤ 250 }
    ensures { bytes.new ≡ header size count ++ drop 6 bytes.old }
{
    bytes[..4].copy_from_slice(&(size as u32).to_le_bytes());
    bytes[4..6].copy_from_slice(&(count as u16).to_le_bytes());
}
