// A line that stays a line: copied as it stands, or, where a column changes, written column by column.
ghost use Rattle.std.specs.Prelude.{◌≡◌, ◌+◌, ◌*◌};
ghost use Rattle.sheets.specs.Bytes.{same};
ghost use Rattle.buffer.specs.Over.{IsUsize, PutAt};
ghost use Rattle.field_line.specs.Columns.{column};
ghost use Rattle.plain_line.specs.PlainLines.{HasPart, column_in, text_change_of, changed_text, is_kept, CanPut, CanPutOwn, own_text, changed_line, HasLine, LineHere, LinePut};

use columns::Part;
use datatypes::kind;
use read_field_line::FieldLine;

// What becomes of the column `text`: it is kept, becomes `~`, or becomes the ids 0, 1, ..
#[derive(Clone, Copy)]
enum TextChange {
    Kept,
    Absent,
    Counted,
}

// Whether the column is this text.
fn is_column(s: &[u8], p: Part, text: &[u8]) -> bool
    requires { HasPart s.now p }
    ensures { result ≡ same (column_in s.now p) text.now }
{
    let start = p.start;
    let end = p.end;
    buffer::same(&s[start..end], text)
}

// A timezone that is Some-empty becomes None; a union's ids that are None become 0, 1, ..
fn text_change(s: &[u8], l: FieldLine) -> TextChange
    requires { HasPart s.now l.text }
    ensures { result ≡ text_change_of l.kind (column_in s.now l.text) }
{
    let text = l.text;
    if l.kind == kind::TIMESTAMP {
        if is_column(s, text, b"-") {
            return TextChange::Absent;
        }
        return TextChange::Kept;
    }
    if l.kind == kind::UNION {
        if is_column(s, text, b"~") {
            return TextChange::Counted;
        }
        return TextChange::Kept;
    }
    TextChange::Kept
}

// Whether no column changes.
fn is_kept(s: &[u8], l: FieldLine, change: TextChange) -> bool
    requires { HasPart s.now l.pairs }
    ensures { result ≡ is_kept change (column_in s.now l.pairs) }
{
    let pairs = l.pairs;
    match change {
        TextChange::Kept => !is_column(s, pairs, b"-"),
        TextChange::Absent => false,
        TextChange::Counted => false,
    }
}

// A column as it stands, and a space.
fn put_column(s: &[u8], p: Part, out: &mut [u8], at: usize) -> usize
    requires { CanPut s.now p at }
    ensures { PutAt at (column (column_in s.now p)) result out.old out.new }
{
    let start = p.start;
    let end = p.end;
    let after = buffer::put_at(out, at, &s[start..end]);
    buffer::put_byte(out, after, b' ')
}

// The column `text`.
fn put_text(s: &[u8], l: FieldLine, change: TextChange, out: &mut [u8], at: usize) -> usize
    requires { CanPut s.now l.text (at + 21 * l.children + 21) }
    ensures { PutAt at (column (changed_text change (column_in s.now l.text) l.children)) result out.old out.new }
{
    let text = l.text;
    match change {
        TextChange::Kept => put_column(s, text, out, at),
        TextChange::Absent => buffer::put_at(out, at, b"~ "),
        TextChange::Counted => {
            let end = crate::ids::put_ids(out, at, l.children);
            buffer::put_byte(out, end, b' ')
        }
    }
}

// The columns `name nullable pairs`; pairs that are Some-empty become None.
fn put_own(s: &[u8], l: FieldLine, out: &mut [u8], at: usize) -> usize
    requires { CanPutOwn s.now l at }
    ensures { PutAt at (own_text s.now l) result out.old out.new }
{
    if l.bare {
        return field_line::put_bare(out, at);
    }
    let name = l.name;
    let pairs = l.pairs;
    let flag = put_column(s, name, out, at);
    let last = field_line::put_number(out, flag, field_line::flag(l.nullable));
    if is_column(s, pairs, b"-") {
        return buffer::put_at(out, last, b"~ ");
    }
    put_column(s, pairs, out, last)
}

// A line whose column `text` or `pairs` changes.
fn put_changed(s: &[u8], l: FieldLine, change: TextChange, out: &mut [u8]) -> usize
    requires { HasLine s.now l }
    ensures { PutAt 0 (changed_line s.now l change) result out.old out.new }
{
    let more = l.more;
    let text = field_line::put_kind(out, 0, l.kind, l.p, l.q);
    let next = put_text(s, l, change, out, text);
    let own = put_column(s, more, out, next);
    let children = put_own(s, l, out, own);
    field_line::put_end(out, children, l.children)
}

// The plain form of the line at `at`, as much as fits; how many bytes it has.
pub fn put_line(s: &[u8], at: usize, l: FieldLine, out: &mut [u8]) -> usize
    requires { LineHere s.now at l }
    ensures { LinePut s.now at l out.old out.new result }
{
    let change = text_change(s, l);
    if is_kept(s, l, change) {
        let end = l.end;
        buffer::put(out, &s[at..end]);
        return end - at;
    }
    put_changed(s, l, change, out)
}
