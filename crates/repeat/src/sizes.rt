//! What copies of a part have, before there is a part.

ghost use Rattle.std.specs.Prelude.{◌≡◌};
ghost use Rattle.repeat.specs.Sizes.{size_of_times, HaveInAll};

use super::copies::Copies;
use assembly::plans::Size;

/// How much so many copies of a part of this size have, of whatever part whose ends are of one domain;
/// `None` where they would be void for their number or for having too much.
pub fn size_of_copies(part: Size, times: usize) -> Option<Size>
    ensures value { result ≡ size_of_times times part }
    ensures copies { HaveInAll times part result }
{
    Some(Copies::new(part, times)?.whole)
}
