// What the mappings write for a line of a field sheet: the line with the columns of another field, copied from the sheet; and, for those that walk it, what
// is left to be visited below.
#![tactic(auto)]

pub mod change;
pub mod put;

ghost use Rattle.walks.specs.Places.{HasType};
ghost use Rattle.mapping_line.specs.Begins.{ChangeBegins};

use crate::change::{Change, LineChange};
use outcome::Size;
use refusal::Refusal;
use storage_line::below;
use walks::{LineBegun, Subtree};

// Writes the line that the type at `tree.at` leaves, as far as it fits: that of the type inside all extensions, with the columns of the field's first line.
pub fn begin_change(
    change: Change,
    s: &[u8],
    tree: Subtree,
    out: &mut [u8],
) -> Result<LineBegun, Refusal>
    requires { HasType s.now tree.at tree.levels tree.inside }
    ensures { ChangeBegins change s.now tree out.old out.new result }
{
    let first = read_field_line::field_line_at(s, tree.at);
    let inner = storage_line::storage_line(s, tree, first);
    let own = crate::put::field_columns(first);
    let l = inner.line;
    match crate::change::line_change(change, l.kind, l.p) {
        LineChange::Undefined => Err(Refusal::UndefinedMapping),
        LineChange::Stays => {
            let row = below::row_below(s, tree, l, false);
            let len = crate::put::put_line(s, inner.at, l, own, out);
            Ok(LineBegun {
                row,
                size: Size {
                    len,
                    lines: inner.passed + 1,
                },
                pending: Ok(()),
            })
        }
        LineChange::Becomes(kind) => {
            let row = below::row_below(s, tree, l, true);
            let len = crate::put::put_kind_line(s, kind, own, out);
            Ok(LineBegun {
                row,
                size: Size {
                    len,
                    lines: inner.passed + 1,
                },
                pending: Ok(()),
            })
        }
    }
}
