// The reader: received bytes, and how many of them it has passed.
ghost use Rattle.std.specs.Prelude.{◌≤◌, length};

// Kept: the bytes and how far they are passed, and not a slice that shrinks: a request holds all the bytes, and the places of its arguments are told from their front; each step hands its place on.
#[derive(Drop)]
pub struct Reader<'a> {
    pub(crate) bytes: &'a [u8],
    pub(crate) at: usize,
    ghost within: { at ≤ length bytes.now },
}
