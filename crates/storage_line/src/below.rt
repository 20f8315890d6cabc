// The types below a line that is no extension's: visited, or skipped.
ghost use Rattle.std.specs.Prelude.{false};
ghost use Rattle.walks.specs.Places.{HasRow};
ghost use Rattle.storage_line.specs.Below.{HasBelow, EndsBelow, RowLeft};

use read_field_line::FieldLine;
use walks::{Subtree, Subtrees};

// The place after the types below the line.
pub fn after_below(s: &[u8], l: FieldLine, levels: usize) -> usize
    requires { HasRow s.now l.end l.children levels false }
    ensures { EndsBelow s.now l levels result }
{
    let Some(next) = field_sheet::subtrees::skip_row(s, l.end, l.children, false, levels) else {
        // the whole sheet was read before, and no type has more levels: this never comes
        return s.len();
    };
    next
}

// The types below the line that are still to be visited: all of them, or none, and then they are skipped.
pub fn row_below(s: &[u8], tree: Subtree, l: FieldLine, skipped: bool) -> Subtrees
    requires { HasBelow s.now tree l }
    ensures { RowLeft s.now tree l skipped result }
{
    let levels = tree.levels - 1;
    if skipped {
        let next = after_below(s, l, levels);
        return Subtrees {
            at: next,
            count: 0,
            levels,
            inside: false,
        };
    }
    Subtrees {
        at: l.end,
        count: l.children,
        levels,
        inside: false,
    }
}
