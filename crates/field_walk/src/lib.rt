// The walk over the lines of a field sheet, once for every call that answers lines for it: the lines that a call makes of a type are written line by line
// into a lent buffer, by a recursion on the levels left.
#![tactic(auto)]

ghost use Rattle.std.specs.Prelude.{◌≡◌};
ghost use Rattle.walks.specs.Places.{HasType, HasRow};
ghost use Rattle.field_walk.specs.Calls.{is_inner, leaf_line_of, CallBegins, CallLeafWrote, CallWrote, CallRowWrote};

use mapping_line::change::Change;
use outcome::Size;
use refusal::Refusal;
use walks::{LineBegun, Subtree, Subtrees};

// Which lines are written. Export takes the order of the metadata, big-endian or not, and whether the sheet was read strictly, which changes no line.
#[derive(Clone, Copy)]
pub enum Call {
    Export { big: bool, strict: bool },
    Plain,
    ToStorageRecursive,
    UnderlyingPhysicalType,
    Page,
}

// A call is one case here: what it writes for the line at `at`, and what is left to be visited below.
fn begin_one(call: Call, s: &[u8], tree: Subtree, out: &mut [u8]) -> Result<LineBegun, Refusal>
    requires { HasType s.now tree.at tree.levels tree.inside }
    ensures { CallBegins call s.now tree out.old out.new result }
{
    match call {
        Call::Export { big, strict: _ } => export_line::begin_export(s, tree, big, out),
        Call::Plain => plain_line::begin_plain(s, tree, out),
        Call::ToStorageRecursive => mapping_line::begin_change(Change::Storage, s, tree, out),
        Call::UnderlyingPhysicalType => mapping_line::begin_change(
            Change::Underlying,
            s,
            tree,
            out,
        ),
        Call::Page => page_line::begin_page(s, tree, out),
    }
}

// Whether what is left is the one type directly inside an extension.
fn is_inner(row: Subtrees) -> bool
    ensures { result ≡ is_inner row }
{
    if !row.inside {
        return false;
    }
    row.count == 1
}

// The same; after an extension's line that of its inner type is written at once, so that the recursion goes down one level for both.
fn begin_line(call: Call, s: &[u8], tree: Subtree, out: &mut [u8]) -> Result<LineBegun, Refusal>
    requires { HasType s.now tree.at tree.levels tree.inside }
    ensures { CallBegins call s.now tree out.old out.new result }
{
    let begun = begin_one(call, s, tree, out)?;
    if begun.pending.is_err() {
        return Ok(begun);
    }
    if !is_inner(begun.row) {
        return Ok(begun);
    }
    let size = begun.size;
    let w = buffer::within(size.len, out.len());
    let inner = Subtree {
        at: begun.row.at,
        levels: begun.row.levels,
        inside: begun.row.inside,
    };
    let next = begin_one(call, s, inner, &mut out[w..])?;
    let more = next.size;
    Ok(LineBegun {
        row: next.row,
        size: Size {
            len: size.len + more.len,
            lines: size.lines + more.lines,
        },
        pending: next.pending,
    })
}

// What a call writes for a leaf's short line: a schema line, a line of the page, or the line as it stands, that of a date among them or not.
#[derive(Drop)]
enum LeafLine {
    Schema,
    Same(bool),
    Page,
}

fn leaf_line(call: Call) -> LeafLine
    ensures { result ≡ leaf_line_of call }
{
    match call {
        Call::Export { big: _, strict: _ } => LeafLine::Schema,
        Call::Plain => LeafLine::Same(true),
        Call::ToStorageRecursive => LeafLine::Same(true),
        Call::UnderlyingPhysicalType => LeafLine::Same(false),
        Call::Page => LeafLine::Page,
    }
}

// The line of a leaf at once, where it is of the short kind and fits; else nothing is written. `copy_leaf` has one caller, so that it stands in the loop.
fn put_leaf(call: Call, s: &[u8], tree: Subtree, out: &mut [u8]) -> Option<(usize, usize)>
    ensures { CallLeafWrote call s.now tree out.old out.new result }
{
    match leaf_line(call) {
        LeafLine::Schema => put_schema_leaf::put_schema_leaf(s, tree.at, out),
        LeafLine::Same(dates) => put_schema_leaf::copy_leaf(s, tree.at, dates, out),
        LeafLine::Page => page_line::put_page_leaf(s, tree, out),
    }
}

// The same as `walk_type`; the line of a leaf is written at once, where it can be.
#[cycle(next_type_walk_row_walk_type)]
fn next_type(call: Call, s: &[u8], tree: Subtree, out: &mut [u8]) -> Result<(usize, Size), Refusal>
    requires { HasType s.now tree.at tree.levels tree.inside }
    ensures { CallWrote call s.now tree out.old out.new result }
{
    match put_leaf(call, s, tree, out) {
        Some((next, len)) => Ok((next, Size { len, lines: 1 })),
        None => walk_type(call, s, tree, out),
    }
}

// Writes the lines for the type that stands at `at`, as far as they fit.
#[cycle(next_type_walk_row_walk_type)]
fn walk_type(call: Call, s: &[u8], tree: Subtree, out: &mut [u8]) -> Result<(usize, Size), Refusal>
    requires { HasType s.now tree.at tree.levels tree.inside }
    ensures { CallWrote call s.now tree out.old out.new result }
{
    let LineBegun { row, size, pending } = begin_line(call, s, tree, out)?;
    let w = buffer::within(size.len, out.len());
    let (next, below) = walk_row(call, s, row, &mut out[w..])?;
    let both = Size {
        len: size.len + below.len,
        lines: size.lines + below.lines,
    };
    walks::end_line(pending, next, both)
}

// Writes the lines for types that stand one after the other, as far as they fit.
#[cycle(next_type_walk_row_walk_type)]
fn walk_row(call: Call, s: &[u8], row: Subtrees, out: &mut [u8]) -> Result<(usize, Size), Refusal>
    requires { HasRow s.now row.at row.count row.levels row.inside }
    ensures { CallRowWrote call s.now row out.old out.new result }
{
    let mut here = row.at;
    let mut sum = 0;
    let mut seen = 0;
    for i in 0..row.count {
        let w = buffer::within(sum, out.len());
        let tree = Subtree {
            at: here,
            levels: row.levels,
            inside: row.inside,
        };
        let (next, size) = next_type(call, s, tree, &mut out[w..])?;
        here = next;
        sum = sum + size.len;
        seen = seen + size.lines;
    }
    Ok((
        here,
        Size {
            len: sum,
            lines: seen,
        },
    ))
}

// The same as `walk_type`, by a row of one type: so a sheet that is one leaf is written at once too, and `next_type` has one caller.
pub fn walk_first(
    call: Call,
    s: &[u8],
    tree: Subtree,
    out: &mut [u8],
) -> Result<(usize, Size), Refusal>
    requires { HasType s.now tree.at tree.levels tree.inside }
    ensures { CallWrote call s.now tree out.old out.new result }
{
    let row = Subtrees {
        at: tree.at,
        count: 1,
        levels: tree.levels,
        inside: tree.inside,
    };
    walk_row(call, s, row, out)
}
