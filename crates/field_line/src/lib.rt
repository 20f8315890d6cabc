// Lines of a field sheet, written column by column into a lent buffer, as much as fits. Each writer answers the place after what it wrote, also
// where that is past the buffer's end.
#![tactic(auto)]

ghost use Rattle.std.specs.Prelude.{◌≡◌, ◌+◌, length};
ghost use Rattle.sheets.specs.Number.{decimal};
ghost use Rattle.sheets.specs.Sheet.{heading_line};
ghost use Rattle.sheets.specs.FieldSheet.{field_heading, no_text, to_nat};
ghost use Rattle.buffer.specs.Over.{IsUsize, PutAt};
ghost use Rattle.field_line.specs.Columns.{column, kind_piece, shape_piece, own_piece, end_piece, pair_piece};

// Writes the heading of a field sheet and its byte 10, as much as fits; their length.
pub fn put_heading(out: &mut [u8]) -> usize
    ensures { PutAt 0 (heading_line field_heading) result out.old out.new }
{
    buffer::put_at(out, 0, b"kind p q text more name nullable pairs children\n")
}

// `nullable`, and what else of a line is 0 or 1.
pub fn flag(b: bool) -> u64
    ensures { result ≡ to_nat b }
{
    if b {
        return 1;
    }
    0
}

// A column that is a number, and a space.
pub fn put_number(out: &mut [u8], at: usize, n: u64) -> usize
    requires { IsUsize (at + 21) }
    ensures { PutAt at (column (decimal n)) result out.old out.new }
{
    let after = decimal::put::put_u64(out, at, n);
    buffer::put_byte(out, after, b' ')
}

// The columns `kind p q`.
pub fn put_kind(out: &mut [u8], at: usize, kind: u64, p: u64, q: u64) -> usize
    requires { IsUsize (at + 63) }
    ensures { PutAt at (kind_piece kind p q) result out.old out.new }
{
    let first = put_number(out, at, kind);
    let second = put_number(out, first, p);
    put_number(out, second, q)
}

// The columns `kind p q text more` of a type that needs no text.
pub fn put_numbers(out: &mut [u8], at: usize, kind: u64, p: u64, q: u64) -> usize
    requires { IsUsize (at + 67) }
    ensures { PutAt at (shape_piece kind p q no_text no_text) result out.old out.new }
{
    let texts = put_kind(out, at, kind, p, q);
    buffer::put_at(out, texts, b"~ ~ ")
}

// The columns `name nullable pairs` of a bare line.
pub fn put_bare(out: &mut [u8], at: usize) -> usize
    requires { IsUsize (at + 6) }
    ensures { PutAt at (own_piece no_text no_text no_text) result out.old out.new }
{
    buffer::put_at(out, at, b"~ ~ ~ ")
}

// The column `children` and byte 10.
pub fn put_end(out: &mut [u8], at: usize, children: u64) -> usize
    requires { IsUsize (at + 21) }
    ensures { PutAt at (end_piece children) result out.old out.new }
{
    let end = decimal::put::put_u64(out, at, children);
    buffer::put_byte(out, end, b'\n')
}

// A pair of the column `pairs`, both texts as they stand.
pub fn put_pair(out: &mut [u8], at: usize, key: &[u8], value: &[u8]) -> usize
    requires { IsUsize (at + (1 + length key.now + length value.now)) }
    ensures { PutAt at (pair_piece key.now value.now) result out.old out.new }
{
    let a = buffer::put_at(out, at, key);
    let b = buffer::put_byte(out, a, b'=');
    buffer::put_at(out, b, value)
}
