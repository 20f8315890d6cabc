// What the page has for one line of a field sheet: its level, the mark of its nullable and the digits of its name, and what is left to be visited below
// it; and the line of a leaf, read and written at once.
#![tactic(auto)]

pub mod put;

ghost use Rattle.std.specs.Prelude.{◌≡◌, ◌<◌};
ghost use Rattle.sheets.specs.PageSteps.{level_of};
ghost use Rattle.page_line.specs.PageLines.{mark_of, shown_part};
ghost use Rattle.page_line.specs.PageLeaves.{PageLeafPuts};
ghost use Rattle.page_line.specs.Begins.{PageBegins};
ghost use Rattle.walks.specs.Places.{HasType};

use columns::Part;
use field_leaf::FieldLeaf;
use field_sheet::levels;
use outcome::Size;
use refusal::Refusal;
use walks::{LineBegun, Subtree};

// The level of a line that has so many levels left.
fn level_of(levels: usize, inside: bool, extension: bool) -> u64
    ensures { (result ≡ level_of levels inside extension) × (result < 100) }
{
    let deeper = field_line::flag(inside & extension);
    if field_sheet::LEVELS < levels {
        return deeper;
    }
    (field_sheet::LEVELS + 1 - levels) as u64 + deeper
}

// `.` for a bare line, else `y` or `n`.
fn mark_of(bare: bool, nullable: bool) -> u8
    ensures { result ≡ mark_of bare nullable }
{
    if bare {
        return b'.';
    }
    if nullable {
        return b'y';
    }
    b'n'
}

// The digits of a name. A column of one byte is `-` or `~`, and has none.
fn shown_name(name: Part) -> Part
    ensures { result ≡ shown_part name }
{
    let end = name.end;
    let start = buffer::within(name.start, end);
    if end - start < 2 {
        return columns::between(end, end);
    }
    name
}

// Writes the line of the leaf whose field line stands at the tree's place, if it is recognised at once.
pub fn put_page_leaf(s: &[u8], tree: Subtree, out: &mut [u8]) -> Option<(usize, usize)>
    ensures { PageLeafPuts s.now tree out.old out.new result }
{
    let FieldLeaf {
        kind,
        start: from,
        end: e,
        nullable,
    } = field_leaf::leaf_at(s, tree.at)?;
    let level = level_of(tree.levels, tree.inside, false);
    let mark = mark_of(false, nullable == 1);
    let len = crate::put::put_line(level, kind, mark, &s[from..e], out);
    Some((e + field_leaf::AFTER_NAME, len))
}

// Writes the line of the page for the line at `tree.at`, as much as fits.
pub fn begin_page(s: &[u8], tree: Subtree, out: &mut [u8]) -> Result<LineBegun, Refusal>
    requires { HasType s.now tree.at tree.levels tree.inside }
    ensures { PageBegins s.now tree out.old out.new result }
{
    let l = read_field_line::field_line_at(s, tree.at);
    let extension = levels::is_extension(l.kind);
    let level = level_of(tree.levels, tree.inside, extension);
    let mark = mark_of(l.bare, l.nullable);
    let name = shown_name(l.name);
    let start = name.start;
    let end = name.end;
    let len = crate::put::put_line(level, l.kind, mark, &s[start..end], out);
    let row = line_below::row_below(tree, l);
    let size = Size { len, lines: 1 };
    Ok(LineBegun {
        row,
        size,
        pending: Ok(()),
    })
}
