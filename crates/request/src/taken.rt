// Requests that were read, and their arguments.
ghost use Rattle.std.specs.Prelude.{◌≤◌};
ghost use Rattle.request.specs.Grammar.{most_arguments};

mod cuts;

use cuts::bytes_at;

// The most arguments that a request has, the command's name among them.
pub const MOST_ARGUMENTS: usize = 16;

// A part of the received bytes: how many bytes come before it, and how many it has.
#[derive(Clone, Copy)]
pub struct Part {
    pub place: usize,
    pub size: usize,
}

// A request, its arguments as parts of the received bytes.
// Kept: an array with a count beside it, since a request is `Copy` and the kit's `ArrayVec` is not; the count's bound is a fact of the type.
#[derive(Clone, Copy)]
pub struct Request<'a> {
    pub(crate) bytes: &'a [u8],
    pub(crate) parts: [Part; MOST_ARGUMENTS],
    pub(crate) count: usize,
    pub(crate) span: usize,
    ghost few: { count ≤ most_arguments },
}

impl<'a> Request<'a> {
    ghost use Rattle.std.specs.Prelude.{◌≡◌};
    ghost use Rattle.std.specs.Option.{option_map};
    ghost use Rattle.std.specs.List.{slice_get};
    ghost use Rattle.request.specs.Answers.{parts_in, arguments};

    // How many arguments it has.
    pub fn count(&self) -> usize
        ensures { result ≡ self.now.count }
    {
        self.count
    }

    // How many bytes it has.
    pub fn span(&self) -> usize
        ensures { result ≡ self.now.span }
    {
        self.span
    }

    // Where an argument stands in the received bytes; none past the last.
    pub fn part(&self, index: usize) -> Option<Part>
        ensures { result ≡ slice_get (parts_in self.now) index }
    {
        self.argument_parts().get(index).copied()
    }

    // An argument; none past the last.
    pub fn argument(&self, index: usize) -> Option<&'a [u8]>
        ensures { option_map (λ x. x.now) result ≡ slice_get (arguments self.now) index }
    {
        bytes_at(self.bytes, self.argument_parts(), index)
    }

    // The parts of the arguments.
    fn argument_parts(&self) -> &[Part]
        ensures { result.now ≡ parts_in self.now }
    {
        &self.parts[..self.count]
    }
}
