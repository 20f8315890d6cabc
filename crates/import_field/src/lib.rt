// The lines of a field from the lines of its schema, in a lent buffer. A field is read through its type, and a type through its fields. Each line is tested
// when it is come to, and no line is looked at twice: where one breaks its rules, or has too many levels, some refusal is answered, and whoever asked
// tests the sheet to tell which one comes first.
#![tactic(auto)]

ghost use Rattle.std.specs.Prelude.{◌≡◌, ◌≤◌, length};
ghost use Rattle.node.specs.Info.{HasEntries};
ghost use Rattle.sheets.specs.Sheet.{sheet_limit};
ghost use Rattle.import_field.specs.Recursion.{HasFirst, visit_of, HasLine};
ghost use Rattle.import_field.specs.Recursion.{BegunTold, NodeTold, EndedTold, FieldEnds, FieldTold, FieldsTold, TypeTold};

use import_type::Below;
use node::lines::Shown;
use outcome::Size;
use refusal::Refusal;
use schema_line::SchemaLine;

// A schema of at most `levels` levels that stands at `at`; the first line of its field is bare or not, and its metadata is big-endian or not.
#[derive(Clone, Copy)]
pub struct Tree {
    pub at: usize,
    pub levels: usize,
    pub bare: bool,
    pub big: bool,
}

// `count` such schemas, one after the other.
#[derive(Clone, Copy)]
pub struct Trees {
    pub at: usize,
    pub count: u64,
    pub levels: usize,
    pub bare: bool,
    pub big: bool,
}

// Of the subtrees below a node the first ones are skipped, then `count` are visited, bare or not, then the last ones are skipped.
#[derive(Drop)]
pub struct Visit {
    pub first: u64,
    pub count: u64,
    pub bare: bool,
    pub last: u64,
}

// Where the visited subtrees begin, how many bytes the type's line has, and what is to be done below it.
#[derive(Drop)]
struct TypeBegun {
    from: usize,
    len: usize,
    visit: Visit,
}

// The subtrees below a node, by what its type visits.
fn visit_of(b: Below, children: u64) -> Visit
    requires { HasFirst b children }
    ensures { result ≡ visit_of b children }
{
    match b {
        Below::Nothing => Visit {
            first: children,
            count: 0,
            bare: false,
            last: 0,
        },
        Below::First => Visit {
            first: 0,
            count: 1,
            bare: false,
            last: children - 1,
        },
        Below::All => Visit {
            first: 0,
            count: children,
            bare: false,
            last: 0,
        },
        Below::Values => Visit {
            first: children,
            count: 1,
            bare: true,
            last: 0,
        },
    }
}

// Writes the line of the type of a node and passes the subtrees before those that it visits; below the node are `levels` levels at most.
fn begin_type(
    s: &[u8],
    line: SchemaLine,
    shown: Shown,
    levels: usize,
    out: &mut [u8],
    entries: &[u32],
) -> Result<TypeBegun, Refusal>
    requires { HasLine s.now line shown entries.now }
    ensures { BegunTold s.now line shown levels entries.now out.old out.new result }
{
    let (len, below) = node::put_type_line(s, line, shown, out, entries)?;
    let visit = visit_of(below, line.children);
    let from = schema_sheet::trees::read_row(s, line.end, visit.first, levels)?;
    Ok(TypeBegun { from, len, visit })
}

// Passes the last `count` subtrees of a node.
fn end_type(
    s: &[u8],
    at: usize,
    count: u64,
    levels: usize,
    size: Size,
) -> Result<(usize, Size), Refusal>
    requires { at ≤ length s.now }
    ensures { EndedTold s.now at count levels size result }
{
    let next = schema_sheet::trees::read_row(s, at, count, levels)?;
    Ok((next, size))
}

// Metadata and name are refused after what stands below.
fn end_field(
    pending: Result<(), Refusal>,
    next: usize,
    size: Size,
) -> Result<(usize, Size), Refusal>
    ensures { FieldEnds pending next size result }
{
    pending?;
    Ok((next, size))
}

// Where the visited subtrees of a node begin, how many bytes its own lines have, what is to be done below it, and the refusal that comes after that, if one
// does.
#[derive(Drop)]
struct NodeBegun {
    from: usize,
    len: usize,
    visit: Visit,
    pending: Result<(), Refusal>,
}

// Writes a node's own lines, that of its extension, if there is one, and its type's, and passes the subtrees before those that the type visits. Its metadata and
// its name are read first, since its line shows them, and refused last.
fn begin_any(
    s: &[u8],
    tree: Tree,
    out: &mut [u8],
    entries: &mut [u32],
    spare: &mut [u32],
) -> Result<NodeBegun, Refusal>
    requires le_levels { 1 ≤ tree.levels }
    requires s_len_bound { length s.now ≤ sheet_limit }
    requires has_entries { HasEntries s.now entries.old spare.old }
    ensures { NodeTold s.now tree out.old out.new result }
{
    let Some(line) = schema_line::read::read_line(s, tree.at) else {
        return Err(Refusal::BadLines);
    };
    let begun = node::begin_field(s, line, tree.bare, tree.big, out, entries, spare);
    let shown = begun.shown;
    let pending = begun.pending;
    let w = buffer::within(begun.len, out.len());
    let TypeBegun { from, len, visit } = begin_type(
        s,
        line,
        shown,
        tree.levels - 1,
        &mut out[w..],
        entries,
    )?;
    Ok(NodeBegun {
        from,
        len: begun.len + len,
        visit,
        pending,
    })
}

// The same; the line of a list or a struct with one child to nine is written at once, where it fits.
fn begin_node(
    s: &[u8],
    tree: Tree,
    out: &mut [u8],
    entries: &mut [u32],
    spare: &mut [u32],
) -> Result<NodeBegun, Refusal>
    requires le_levels { 1 ≤ tree.levels }
    requires s_len_bound { length s.now ≤ sheet_limit }
    requires has_entries { HasEntries s.now entries.old spare.old }
    ensures { NodeTold s.now tree out.old out.new result }
{
    let Some(put) = put_leaf::put_nested(s, tree.at, tree.bare, out) else {
        return begin_any(s, tree, out, entries, spare);
    };
    Ok(NodeBegun {
        from: put.next,
        len: put.len,
        visit: Visit {
            first: 0,
            count: put.count,
            bare: false,
            last: put.last,
        },
        pending: Ok(()),
    })
}

// Writes the lines of a field, as far as they fit. Where the reading goes on, how many bytes the lines have and how many lines of the schema sheet were
// visited for them; or why the sheet is refused.
#[cycle(next_field_to_dtype_to_field_to_fields)]
fn to_field(
    s: &[u8],
    tree: Tree,
    out: &mut [u8],
    entries: &mut [u32],
    spare: &mut [u32],
) -> Result<(usize, Size), Refusal>
    requires le_levels { 1 ≤ tree.levels }
    requires s_len_bound { length s.now ≤ sheet_limit }
    requires has_entries { HasEntries s.now entries.old spare.old }
    ensures { FieldTold s.now tree out.old out.new result }
{
    let NodeBegun {
        from,
        len,
        visit,
        pending,
    } = begin_node(s, tree, out, entries, spare)?;
    let w = buffer::within(len, out.len());
    let row = Trees {
        at: from,
        count: visit.count,
        levels: tree.levels - 1,
        bare: visit.bare,
        big: tree.big,
    };
    let (next, below) = to_dtype(s, row, visit.last, &mut out[w..], entries, spare)?;
    let size = Size {
        len: len + below.len,
        lines: 1 + below.lines,
    };
    end_field(pending, next, size)
}

// Writes the lines of the fields of a type, as far as they fit, and passes the last subtrees of its node, which it does not visit.
#[cycle(next_field_to_dtype_to_field_to_fields)]
fn to_dtype(
    s: &[u8],
    row: Trees,
    last: u64,
    out: &mut [u8],
    entries: &mut [u32],
    spare: &mut [u32],
) -> Result<(usize, Size), Refusal>
    requires s_len_bound { length s.now ≤ sheet_limit }
    requires at_in_bounds { row.at ≤ length s.now }
    requires has_entries { HasEntries s.now entries.old spare.old }
    ensures { TypeTold s.now row last out.old out.new result }
{
    let (next, size) = to_fields(s, row, out, entries, spare)?;
    end_type(s, next, last, row.levels, size)
}

// Writes the lines of fields whose schemas stand one after the other, as far as they fit.
#[cycle(next_field_to_dtype_to_field_to_fields)]
fn to_fields(
    s: &[u8],
    row: Trees,
    out: &mut [u8],
    entries: &mut [u32],
    spare: &mut [u32],
) -> Result<(usize, Size), Refusal>
    requires s_len_bound { length s.now ≤ sheet_limit }
    requires at_in_bounds { row.at ≤ length s.now }
    requires has_entries { HasEntries s.now entries.old spare.old }
    ensures { FieldsTold s.now row out.old out.new result }
{
    let mut here = row.at;
    let mut sum = 0;
    let mut lines = 0;
    for i in 0..row.count {
        let w = buffer::within(sum, out.len());
        let tree = Tree {
            at: here,
            levels: row.levels,
            bare: row.bare,
            big: row.big,
        };
        let (next, size) = next_field(s, tree, &mut out[w..], entries, spare)?;
        here = next;
        sum = sum + size.len;
        lines = lines + size.lines;
    }
    let size = Size { len: sum, lines };
    Ok((here, size))
}

// The same as `to_field`, unless no level is left; the line of a leaf is written at once, where it fits.
#[cycle(next_field_to_dtype_to_field_to_fields)]
fn next_field(
    s: &[u8],
    tree: Tree,
    out: &mut [u8],
    entries: &mut [u32],
    spare: &mut [u32],
) -> Result<(usize, Size), Refusal>
    requires s_len_bound { length s.now ≤ sheet_limit }
    requires has_entries { HasEntries s.now entries.old spare.old }
    ensures { FieldTold s.now tree out.old out.new result }
{
    if tree.levels == 0 {
        return Err(Refusal::TooDeep);
    }
    match put_leaf::put_leaf(s, tree.at, tree.bare, out) {
        Some((next, len)) => {
            let size = Size { len, lines: 1 };
            Ok((next, size))
        }
        None => to_field(s, tree, out, entries, spare),
    }
}

// The same as `to_field`, by a row of one field: so a sheet that is one leaf is written at once too, and `next_field` has one caller.
pub fn to_first_field(
    s: &[u8],
    tree: Tree,
    out: &mut [u8],
    entries: &mut [u32],
    spare: &mut [u32],
) -> Result<(usize, Size), Refusal>
    requires s_len_bound { length s.now ≤ sheet_limit }
    requires at_in_bounds { tree.at ≤ length s.now }
    requires has_entries { HasEntries s.now entries.old spare.old }
    ensures { FieldTold s.now tree out.old out.new result }
{
    let row = Trees {
        at: tree.at,
        count: 1,
        levels: tree.levels,
        bare: tree.bare,
        big: tree.big,
    };
    to_fields(s, row, out, entries, spare)
}
