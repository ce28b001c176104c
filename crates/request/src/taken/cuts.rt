// Bytes at parts.
ghost use Rattle.std.specs.Prelude.{◌≡◌, map};
ghost use Rattle.std.specs.Option.{option_map};
ghost use Rattle.std.specs.List.{slice_get};
ghost use Rattle.request.specs.Answers.{cut};

use super::Part;

// The bytes at a part, as far as they are there.
fn cut_out<'a>(bytes: &'a [u8], part: Part) -> &'a [u8]
    ensures { result.now ≡ cut bytes.now part }
{
    let from = part.place.min(bytes.len());
    let size = part.size.min(bytes.len() - from);
    &bytes[from..from + size]
}

// The bytes at one of the parts.
pub fn bytes_at<'a>(bytes: &'a [u8], parts: &[Part], index: usize) -> Option<&'a [u8]>
    ensures { option_map (λ x. x.now) result ≡ slice_get (map (cut bytes.now) parts.now) index }
{
    parts.get(index).map(|&part| cut_out(bytes, part))
}
