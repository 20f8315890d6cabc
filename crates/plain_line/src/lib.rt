// What plain form writes for one line of a field sheet, and what is left to be visited below it. It refuses nothing.
#![tactic(auto)]

pub mod ids;
pub mod line;

ghost use Rattle.std.specs.Prelude.{◌≡◌, ◌<◌};
ghost use Rattle.buffer.specs.Over.{PutAt};
ghost use Rattle.walks.specs.Places.{HasType};
ghost use Rattle.plain_line.specs.Begins.{line_change_of, index_line, HasIndex, PlainBegins};

use datatypes::kind;
use outcome::Size;
use read_field_line::FieldLine;
use refusal::Refusal;
use walks::{LineBegun, Subtree, Subtrees};

// What becomes of a line: it vanishes, leaves the line of its index type, or stays a line.
#[derive(Drop)]
enum LineChange {
    Vanishes,
    BecomesIndex,
    Stays,
}

// Extensions directly inside an extension vanish; a dictionary there becomes its index type.
fn line_change(inside: bool, kind: u64) -> LineChange
    ensures { result ≡ line_change_of inside kind }
{
    if !inside {
        return LineChange::Stays;
    }
    if kind == kind::EXTENSION {
        return LineChange::Vanishes;
    }
    if kind == kind::DICTIONARY {
        return LineChange::BecomesIndex;
    }
    LineChange::Stays
}

// The bare line of a dictionary's index type: the integer types stand in `ArrowDataType` in the order of `IntegerType`.
fn put_index(out: &mut [u8], index: u64) -> usize
    requires { index < 10 }
    ensures { PutAt 0 (index_line index) result out.old out.new }
{
    let own = field_line::put_numbers(out, 0, index + kind::INT8, 0, 0);
    let children = field_line::put_bare(out, own);
    field_line::put_end(out, children, 0)
}

// A dictionary directly inside an extension: its values are skipped.
fn begin_index(s: &[u8], tree: Subtree, l: FieldLine, out: &mut [u8]) -> Result<LineBegun, Refusal>
    requires { HasIndex s.now tree l }
    ensures { PlainBegins s.now tree out.old out.new result }
{
    let len = put_index(out, l.p);
    let left = tree.levels - 1;
    // The whole sheet was read before, and no tree has more levels: this refusal never comes.
    let Some(next) = field_sheet::subtrees::skip_row(s, l.end, l.children, false, left) else {
        return Err(Refusal::TooDeep);
    };
    let row = Subtrees {
        at: next,
        count: 0,
        levels: left,
        inside: false,
    };
    Ok(LineBegun {
        row,
        size: Size { len, lines: 1 },
        pending: Ok(()),
    })
}

// Writes the plain form of the line at `tree.at`, as far as it fits.
pub fn begin_plain(s: &[u8], tree: Subtree, out: &mut [u8]) -> Result<LineBegun, Refusal>
    requires { HasType s.now tree.at tree.levels tree.inside }
    ensures { PlainBegins s.now tree out.old out.new result }
{
    let l = read_field_line::field_line_at(s, tree.at);
    match line_change(tree.inside, l.kind) {
        LineChange::Vanishes => {
            let row = line_below::row_below(tree, l);
            Ok(LineBegun {
                row,
                size: Size { len: 0, lines: 1 },
                pending: Ok(()),
            })
        }
        LineChange::BecomesIndex => begin_index(s, tree, l, out),
        LineChange::Stays => {
            let row = line_below::row_below(tree, l);
            let len = crate::line::put_line(s, tree.at, l, out);
            Ok(LineBegun {
                row,
                size: Size { len, lines: 1 },
                pending: Ok(()),
            })
        }
    }
}
