// A line whose columns `name nullable pairs` are replaced: the parts of the sheet that it is made of are copied, and nothing is read or written anew.
ghost use Rattle.std.specs.Prelude.{◌≡◌, ◌+◌, length};
ghost use Rattle.buffer.specs.Over.{IsUsize, PutAt};
ghost use Rattle.columns.specs.Columns.{part};
ghost use Rattle.mapping_line.specs.PutLines.{HasPart, columns_of, is_own, CanPutColumns, columns_text, CanPutLine, LinePut, CanPutKind, KindPut};

use columns::Part;
use read_field_line::FieldLine;

// The columns `name nullable pairs` of a line with the space after them, as they stand in the sheet.
pub fn field_columns(l: FieldLine) -> Option<Part>
    requires { IsUsize (l.pairs.end + 1) }
    ensures { result ≡ columns_of l }
{
    let name = l.name;
    let pairs = l.pairs;
    Some(columns::between(name.start, pairs.end + 1))
}

// Whether these are the line's own columns.
fn is_own(l: FieldLine, own: Option<Part>) -> bool
    requires { IsUsize (l.pairs.end + 1) }
    ensures { result ≡ is_own l own }
{
    let name = l.name;
    let pairs = l.pairs;
    match own {
        Some(p) => {
            if p.start != name.start {
                return false;
            }
            p.end == pairs.end + 1
        }
        None => l.bare,
    }
}

// A part of the sheet as it stands.
fn copy(s: &[u8], p: Part, out: &mut [u8], at: usize) -> usize
    requires { HasPart s.now p × IsUsize (at + length s.now) }
    ensures { PutAt at (part s.now p.start p.end) result out.old out.new }
{
    let start = p.start;
    let end = p.end;
    buffer::put_at(out, at, &s[start..end])
}

fn put_columns(s: &[u8], own: Option<Part>, out: &mut [u8], at: usize) -> usize
    requires { CanPutColumns s.now own at }
    ensures { PutAt at (columns_text s.now own) result out.old out.new }
{
    match own {
        Some(p) => copy(s, p, out, at),
        None => field_line::put_bare(out, at),
    }
}

// Writes the line at `at` with these columns, as much as fits; how many bytes it has.
pub fn put_line(s: &[u8], at: usize, l: FieldLine, own: Option<Part>, out: &mut [u8]) -> usize
    requires { CanPutLine s.now at l own }
    ensures { LinePut s.now at l own out.old out.new result }
{
    let end = l.end;
    if is_own(l, own) {
        buffer::put(out, &s[at..end]);
        return end - at;
    }
    let name = l.name;
    let pairs = l.pairs;
    let first = copy(s, columns::between(at, name.start), out, 0);
    let children = put_columns(s, own, out, first);
    copy(s, columns::between(pairs.end + 1, end), out, children)
}

// Writes the line of a type that has no columns of its own, by its kind, with these columns of the field.
pub fn put_kind_line(s: &[u8], kind: u64, own: Option<Part>, out: &mut [u8]) -> usize
    requires { CanPutKind s.now own }
    ensures { KindPut s.now kind own out.old out.new result }
{
    let first = field_line::put_numbers(out, 0, kind, 0, 0);
    let children = put_columns(s, own, out, first);
    field_line::put_end(out, children, 0)
}
