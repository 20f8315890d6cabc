// The columns `kind p q text more` of a type, written from what its format says, as much as fits. Each writer answers the place after what it wrote.
ghost use Rattle.std.specs.Prelude.{◌≡◌, ◌+◌};
ghost use Rattle.sheets.specs.FieldSheet.{columns, decimal_kind};
ghost use Rattle.sheets.specs.Format.{width_of};
ghost use Rattle.hexadecimal.specs.Hex.{bytes_of};
ghost use Rattle.buffer.specs.Over.{IsUsize, PutAt};
ghost use Rattle.field_line.specs.Columns.{columns_piece};
ghost use Rattle.format.specs.Formats.{textless_format, timestamp_format, union_format};
ghost use Rattle.import_type.specs.TypeColumns.{shape_of, below_of, FormatPuts, IdsPuts, number_columns, CanPut, CanPutAfter};
ghost use Rattle.format.specs.Parts.{read_ids};

use crate::Below;
use datatypes::kind;
use datatypes::units::{TimeUnit, UnionMode};
use format::parts;
use format::read::Textless;
use refusal::Refusal;

// The columns `kind p q`.
#[derive(Drop)]
struct Numbers(u64, u64, u64);

fn decimal_kind(width: u64) -> u64
    ensures { result ≡ decimal_kind (width_of width) }
{
    match width {
        32 => kind::DECIMAL32,
        64 => kind::DECIMAL64,
        256 => kind::DECIMAL256,
        _ => kind::DECIMAL,
    }
}

fn numbers_of(t: Textless) -> Numbers
    ensures { columns (shape_of (textless_format t)) ≡ number_columns result }
{
    match t {
        Textless::Leaf(kind, unit) => Numbers(kind, unit, 0),
        Textless::FixedSizeBinary(size) => Numbers(kind::FIXED_SIZE_BINARY, size, 0),
        Textless::Decimal(width, precision, scale) => Numbers(
            decimal_kind(width),
            precision,
            scale,
        ),
        Textless::List => Numbers(kind::LIST, 0, 0),
        Textless::LargeList => Numbers(kind::LARGE_LIST, 0, 0),
        Textless::FixedSizeList(size) => Numbers(kind::FIXED_SIZE_LIST, size, 0),
        Textless::Map(sorted) => Numbers(kind::MAP, field_line::flag(sorted), 0),
        Textless::Struct => Numbers(kind::STRUCT, 0, 0),
    }
}

pub fn below_of(t: Textless) -> Below
    ensures { result ≡ below_of (shape_of (textless_format t)) }
{
    match t {
        Textless::Leaf(_, _) => Below::Nothing,
        Textless::FixedSizeBinary(_) => Below::Nothing,
        Textless::Decimal(_, _, _) => Below::Nothing,
        Textless::List => Below::First,
        Textless::LargeList => Below::First,
        Textless::FixedSizeList(_) => Below::First,
        Textless::Map(_) => Below::First,
        Textless::Struct => Below::All,
    }
}

pub fn put_textless(out: &mut [u8], at: usize, t: Textless) -> usize
    requires { IsUsize (at + 67) }
    ensures { PutAt at (columns_piece (columns (shape_of (textless_format t)))) result out.old out.new }
{
    let c = numbers_of(t);
    field_line::put_numbers(out, at, c.0, c.1, c.2)
}

// A timestamp, from the text after its format's colon: an empty timezone is none.
pub fn put_timestamp(out: &mut [u8], at: usize, unit: TimeUnit, zone: &[u8]) -> usize
    requires { CanPut zone.now at }
    ensures { PutAt at (columns_piece (columns (shape_of (timestamp_format unit (bytes_of zone.now))))) result out.old out.new }
{
    if zone.len() == 0 {
        return field_line::put_numbers(out, at, kind::TIMESTAMP, unit.place(), 0);
    }
    let text = field_line::put_kind(out, at, kind::TIMESTAMP, unit.place(), 0);
    let end = buffer::put_at(out, text, zone);
    buffer::put_at(out, end, b" ~ ")
}

// The ids of a union, from the text after its format's colon: the place after them. An id that does not read ends the format there.
fn put_ids(out: &mut [u8], at: usize, ids: &[u8]) -> Result<usize, Refusal>
    requires { CanPutAfter ids.now at }
    ensures { IdsPuts at (read_ids (bytes_of ids.now)) out.old out.new result }
{
    let n = ids.len() / 2;
    let mut from = 0;
    let mut end = at;
    loop {
        let to = parts::place_of(ids, from, b',');
        let Some(id) = parse::parse_i32(parts::part_of(ids, from, to)) else {
            return Err(Refusal::BadNumber);
        };
        let after = decimal::put::put_i32(out, end, id);
        if to == n {
            return Ok(after);
        }
        end = buffer::put_byte(out, after, b',');
        from = to + 1;
    }
}

// A union, from the text after its format's colon.
pub fn put_union(
    out: &mut [u8],
    at: usize,
    mode: UnionMode,
    ids: &[u8],
) -> Result<(usize, Below), Refusal>
    requires { CanPut ids.now at }
    ensures { FormatPuts at (union_format mode (bytes_of ids.now)) out.old out.new result }
{
    let text = field_line::put_kind(out, at, kind::UNION, mode.place(), 0);
    let end = put_ids(out, text, ids)?;
    Ok((buffer::put_at(out, end, b" ~ "), Below::All))
}
