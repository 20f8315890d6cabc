// One line of a schema sheet, written from columns of a field sheet: `format name flags metadata children dictionary`.
#![tactic(auto)]

ghost use Rattle.std.specs.Prelude.{◌≡◌, not, ◌&&◌, [], ◌∷◌, eqb, ltb};
ghost use Rattle.buffer.specs.Over.{PutAt};
ghost use Rattle.column_text.specs.ColumnText.{TextColumn};
ghost use Rattle.field_pairs.specs.Pairs.{PairsColumn};
ghost use Rattle.put_metadata.specs.Block.{metadata_column};
ghost use Rattle.put_schema_line.specs.Lines.{other_flags, line_flags, name_piece, tail_piece, rest_piece, is_plain, column_at, IsPart, LinePut, CanPutName, CanPutTail, CanPutPlain, CanPutRest, CanPutLine, CanPutColumns, PutsColumns};

use columns::Part;
use datatypes::kind;
use refusal::Refusal;
use schema_line::SchemaLine;

// The numbers of a line: `kind`, `p`, `q` of the field line, and `flags`, `children`, `dictionary` of the schema line; and whether its metadata is written
// big-endian.
#[derive(Clone, Copy)]
pub struct LineNumbers {
    pub kind: u64,
    pub p: u64,
    pub q: u64,
    pub flags: u64,
    pub children: u64,
    pub dictionary: u64,
    pub big: bool,
}

// The columns that a line is written from, as parts of the field sheet: `text` of the type's own line; `name` and `pairs` of the field's first line, and there too, where the
// field is an extension, the columns `text` and `more` of the outermost one. Where it is none, the column `more` of its line, which is `~`, stands for both.
#[derive(Drop)]
pub struct LineColumns {
    pub text: Part,
    pub name: Part,
    pub pairs: Part,
    pub extension: Part,
    pub more: Part,
}

// The flag of a map whose keys are sorted, or of a dictionary that is ordered.
fn other_flags(kind: u64, p: u64, q: u64) -> u64
    ensures { result ≡ other_flags kind p q }
{
    if kind == kind::MAP {
        if p == 1 {
            return SchemaLine::SORTED as u64;
        }
        return 0;
    }
    if kind == kind::DICTIONARY {
        if q == 1 {
            return SchemaLine::ORDERED as u64;
        }
    }
    0
}

// The column `flags` of a line that stands in no extension; a dictionary directly under one has no flag of its own, as its index type has none.
pub fn line_flags(nullable: bool, kind: u64, p: u64, q: u64) -> u64
    ensures { result ≡ line_flags nullable kind p q }
{
    let other = other_flags(kind, p, q);
    if nullable {
        return SchemaLine::NULLABLE as u64 + other;
    }
    other
}

// A space and the name. A dictionary's values bear none: their bare line's `~` is written as the empty name.
fn put_name(out: &mut [u8], at: usize, name: &[u8]) -> usize
    requires { CanPutName name.now at }
    ensures { PutAt at (name_piece name.now) result out.old out.new }
{
    let after = buffer::put_byte(out, at, b' ');
    if name.len() == 1 {
        return buffer::put_byte(out, after, b'-');
    }
    buffer::put_at(out, after, name)
}

// What stands after the name, from its space on to the line's end.
fn put_any(
    out: &mut [u8],
    at: usize,
    n: LineNumbers,
    pairs: &[u8],
    extension: &[u8],
    more: &[u8],
) -> usize
    requires { CanPutTail pairs.now extension.now more.now at }
    ensures { PutAt at (tail_piece n (metadata_column n.big pairs.now extension.now more.now)) result out.old out.new }
{
    let a = buffer::put_byte(out, at, b' ');
    let b = field_line::put_number(out, a, n.flags);
    let c = put_metadata::put_metadata(out, b, pairs, extension, more, n.big);
    let d = buffer::put_byte(out, c, b' ');
    let e = field_line::put_number(out, d, n.children);
    field_line::put_end(out, e, n.dictionary)
}

// Whether there is no metadata and each number has one digit, as in the lines of most leaves.
fn is_plain(n: LineNumbers, pairs: &[u8], extension: &[u8]) -> bool
    requires { PairsColumn pairs.now }
    ensures { result ≡ is_plain n pairs.now extension.now }
{
    if field_pairs::first_place(pairs) < pairs.len() {
        return false;
    }
    if !buffer::same(extension, b"~") {
        return false;
    }
    if 9 < n.flags {
        return false;
    }
    if 9 < n.children {
        return false;
    }
    n.dictionary < 10
}

// Such a tail, ` 0 ~ 0 0` with these digits and byte 10, written at once; or counted, where no byte is lent.
fn put_plain(out: &mut [u8], at: usize, n: LineNumbers) -> usize
    requires { CanPutPlain n out.old at }
    ensures { PutAt at (tail_piece n (126 ∷ [])) result out.old out.new }
{
    if out.len() == 0 {
        return at + 9;
    }
    let digits = n.flags * 0x100 + n.children * 0x10000000000 + n.dictionary * 0x100000000000000;
    words::put_word8(out, at, 0x302030207e203020 + digits);
    buffer::put_byte(out, at + 8, b'\n')
}

// Whether bytes are lent, and they end before this place.
fn ends_before(room: usize, end: usize) -> bool
    ensures { result ≡ (not (eqb room 0) && ltb room end) }
{
    if room == 0 {
        return false;
    }
    room < end
}

fn put_tail(
    out: &mut [u8],
    at: usize,
    n: LineNumbers,
    pairs: &[u8],
    extension: &[u8],
    more: &[u8],
) -> usize
    requires { CanPutTail pairs.now extension.now more.now at }
    ensures { PutAt at (tail_piece n (metadata_column n.big pairs.now extension.now more.now)) result out.old out.new }
{
    if ends_before(out.len(), at + 9) {
        return put_any(out, at, n, pairs, extension, more);
    }
    if !is_plain(n, pairs, extension) {
        return put_any(out, at, n, pairs, extension, more);
    }
    put_plain(out, at, n)
}

// What stands after the format: from its space on to the line's end.
fn put_rest(
    out: &mut [u8],
    at: usize,
    n: LineNumbers,
    name: &[u8],
    pairs: &[u8],
    extension: &[u8],
    more: &[u8],
) -> usize
    requires { CanPutRest name.now pairs.now extension.now more.now at }
    ensures { PutAt at (rest_piece n name.now (metadata_column n.big pairs.now extension.now more.now)) result out.old out.new }
{
    let after = put_name(out, at, name);
    put_tail(out, after, n, pairs, extension, more)
}

fn put_columns(
    out: &mut [u8],
    n: LineNumbers,
    text: &[u8],
    name: &[u8],
    pairs: &[u8],
    extension: &[u8],
    more: &[u8],
) -> Result<(usize, bool), Refusal>
    requires { CanPutColumns n text.now name.now pairs.now extension.now more.now }
    ensures { PutsColumns n text.now name.now pairs.now extension.now more.now result out.old out.new }
{
    let (at, zero) = put_format::put_format(out, 0, n.kind, n.p, n.q, text, n.children)?;
    let end = put_rest(out, at, n, name, pairs, extension, more);
    let named = column_text::has_zero(name);
    Ok((end, zero | named))
}

fn cut(s: &[u8], p: Part) -> &[u8]
    requires { IsPart s.now p }
    ensures { result.now ≡ column_at s.now p }
{
    let start = p.start;
    let end = p.end;
    &s[start..end]
}

// Writes the line over the first bytes of what is left of the buffer, as much as fits. The answer is the line's length, and whether byte 00 stands
// in its format or name: then the field is refused after what stands below the line.
pub fn put_schema_line(
    out: &mut [u8],
    s: &[u8],
    c: LineColumns,
    n: LineNumbers,
) -> Result<(usize, bool), Refusal>
    requires { CanPutLine s.now c n }
    ensures { LinePut s.now c n result out.old out.new }
{
    let text = cut(s, c.text);
    let name = cut(s, c.name);
    let pairs = cut(s, c.pairs);
    let extension = cut(s, c.extension);
    let more = cut(s, c.more);
    put_columns(out, n, text, name, pairs, extension, more)
}
