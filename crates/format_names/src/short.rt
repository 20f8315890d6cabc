// The names of one byte, told from their two digits as one number: so the format of a short line is recognised at once.
ghost use Rattle.std.specs.Prelude.{◌≡◌, ◌<◌};
ghost use Rattle.words.specs.Words.{low_bytes};
ghost use Rattle.format_names.specs.ShortNames.{short_rows, kind_among};

use crate::candidates::{Candidates, candidates_of};

// The kind of the type whose name is the pair w.
pub fn short_name(w: u64) -> Option<u64>
    requires { w < 65536 }
    ensures { result ≡ kind_among (low_bytes 2 w) short_rows }
{
    if let Candidates::One(kind) = candidates_of(1, w) {
        return Some(kind);
    }
    None
}
