// What stands below a line that was read, all of it still to be visited.
#![tactic(auto)]

ghost use Rattle.std.specs.Prelude.{◌≡◌, ◌≤◌};
ghost use Rattle.line_below.specs.Below.{row_below};

use field_sheet::levels;
use read_field_line::FieldLine;
use walks::{Subtree, Subtrees};

// The types below a line, all of which are visited.
pub fn row_below(tree: Subtree, l: FieldLine) -> Subtrees
    requires { 1 ≤ tree.levels }
    ensures { result ≡ row_below tree l }
{
    let inside = levels::is_extension(l.kind);
    let cost = levels::line_cost(tree.inside, inside);
    Subtrees {
        at: l.end,
        count: l.children,
        levels: tree.levels - cost,
        inside,
    }
}
