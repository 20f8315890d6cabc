// The levels that the lines of a field sheet take.
ghost use Rattle.std.specs.Prelude.{◌≡◌, eqb};
ghost use Rattle.sheets.specs.Kind.{Extension};
ghost use Rattle.sheets.specs.FieldTrees.{line_cost};

use datatypes::kind;

pub fn is_extension(kind: u64) -> bool
    ensures { result ≡ eqb kind Extension }
{
    kind == kind::EXTENSION
}

// An extension that does not stand directly in another takes no level: its inner line is on its level. Every other line takes one.
pub fn line_cost(inside: bool, extension: bool) -> usize
    ensures { result ≡ line_cost inside extension }
{
    if !extension {
        return 1;
    }
    if inside {
        return 1;
    }
    0
}
