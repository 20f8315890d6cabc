// `to_format`: the format of a field line's type in hexadecimal, from the line's columns, as the schema line has it.
#![tactic(auto)]

pub mod names;
pub mod numbers;

ghost use Rattle.std.specs.Prelude.{◌++◌, eqb};
ghost use Rattle.sheets.specs.Answer.{given};
ghost use Rattle.sheets.specs.Number.{decimal};
ghost use Rattle.sheets.specs.Format.{or_empty, union_name};
ghost use Rattle.column_text.specs.ColumnText.{column_text, TextColumn};
ghost use Rattle.put_format.specs.Formats.{Formats, CanPutName};
ghost use Rattle.put_format.specs.LineFormat.{decimal_text, timestamp_format, ids_in, union_format, line_format, CanPutZone, CanPutIds, CanPutUnion, CanFormat};

use datatypes::units::UnionMode;
use datatypes::{kind, unit};
use refusal::Refusal;

// A name and a number after it.
fn put_sized(out: &mut [u8], at: usize, name: &[u8], n: u64) -> Result<(usize, bool), Refusal>
    requires { CanPutName name.now at }
    ensures { Formats (given (name.now ++ decimal n)) at result out.old out.new }
{
    let after = hexadecimal::put::put_hex(out, at, name);
    let end = crate::numbers::put_number(out, after, n);
    Ok((end, false))
}

// A decimal: its precision, its scale and, with a comma before it, its width.
fn put_decimal_type(
    out: &mut [u8],
    at: usize,
    p: u64,
    q: u64,
    width: &[u8],
) -> Result<(usize, bool), Refusal>
    requires { CanPutName width.now at }
    ensures { Formats (given (decimal_text p q width.now)) at result out.old out.new }
{
    let precision = hexadecimal::put::put_hex(out, at, b"d:");
    let sign = crate::numbers::put_number(out, precision, p);
    let scale = hexadecimal::put::put_hex(out, sign, b",");
    let after = crate::numbers::put_number(out, scale, q);
    let end = hexadecimal::put::put_hex(out, after, width);
    Ok((end, false))
}

// A name and the timezone after it, which is hexadecimal already.
fn put_zoned(out: &mut [u8], at: usize, name: &[u8], zone: &[u8]) -> Result<(usize, bool), Refusal>
    requires { CanPutName name.now at × TextColumn zone.now }
    ensures { Formats (given (name.now ++ or_empty (column_text zone.now))) at result out.old out.new }
{
    let after = hexadecimal::put::put_hex(out, at, name);
    let text = schema_line::text_of(zone);
    let end = buffer::put_at(out, after, text);
    let zero = column_text::has_zero(zone);
    Ok((end, zero))
}

fn put_timestamp(out: &mut [u8], at: usize, p: u64, zone: &[u8]) -> Result<(usize, bool), Refusal>
    requires { CanPutZone p zone.now at }
    ensures { Formats (timestamp_format p (column_text zone.now)) at result out.old out.new }
{
    match p {
        unit::SECOND => put_zoned(out, at, b"tss:", zone),
        unit::MILLISECOND => put_zoned(out, at, b"tsm:", zone),
        unit::MICROSECOND => put_zoned(out, at, b"tsu:", zone),
        _ => put_zoned(out, at, b"tsn:", zone),
    }
}

// A name and a union's ids after it. Ids that are listed stand in the column as the format has them; else the fields are counted.
fn put_ids(
    out: &mut [u8],
    at: usize,
    name: &[u8],
    ids: &[u8],
    fields: u64,
) -> Result<(usize, bool), Refusal>
    requires { CanPutIds name.now ids.now fields at }
    ensures { Formats (union_format name.now (ids_in ids.now) fields) at result out.old out.new }
{
    if buffer::same(ids, b"-") {
        return Err(Refusal::NoUnionIds);
    }
    if buffer::same(ids, b"~") {
        if fields == 0 {
            return Err(Refusal::NoUnionIds);
        }
        let after = hexadecimal::put::put_hex(out, at, name);
        let end = crate::numbers::put_counted(out, after, fields);
        return Ok((end, false));
    }
    let after = hexadecimal::put::put_hex(out, at, name);
    let end = hexadecimal::put::put_hex(out, after, ids);
    Ok((end, false))
}

fn put_union(
    out: &mut [u8],
    at: usize,
    p: u64,
    ids: &[u8],
    fields: u64,
) -> Result<(usize, bool), Refusal>
    requires { CanPutUnion ids.now fields at }
    ensures { Formats (union_format (union_name (eqb p 1)) (ids_in ids.now) fields) at result out.old out.new }
{
    if p == UnionMode::Sparse.place() {
        return put_ids(out, at, b"+us:", ids, fields);
    }
    put_ids(out, at, b"+ud:", ids, fields)
}

// Writes the format from place `at` on, as much as fits; the place after it and whether byte 00 stands in it, for which the field is refused after its children
// (14); or why it is refused at once. `fields` is the line's number of children; no line of an extension has a format.
pub fn put_format(
    out: &mut [u8],
    at: usize,
    kind: u64,
    p: u64,
    q: u64,
    text: &[u8],
    fields: u64,
) -> Result<(usize, bool), Refusal>
    requires { CanFormat kind p q text.now fields at }
    ensures { Formats (line_format kind p q text.now fields) at result out.old out.new }
{
    match kind {
        kind::TIMESTAMP => put_timestamp(out, at, p, text),
        kind::FIXED_SIZE_BINARY => put_sized(out, at, b"w:", p),
        kind::LIST => crate::names::put_row(out, at, format_names::names::LIST),
        kind::FIXED_SIZE_LIST => put_sized(out, at, b"+w:", p),
        kind::LARGE_LIST => crate::names::put_row(out, at, format_names::names::LARGE_LIST),
        kind::STRUCT => crate::names::put_row(out, at, format_names::names::STRUCT),
        kind::MAP => crate::names::put_row(out, at, format_names::names::MAP),
        kind::DICTIONARY => crate::names::put_leaf(out, at, p + kind::INT8, 0),
        kind::DECIMAL => put_decimal_type(out, at, p, q, b""),
        kind::DECIMAL32 => put_decimal_type(out, at, p, q, b",32"),
        kind::DECIMAL64 => put_decimal_type(out, at, p, q, b",64"),
        kind::DECIMAL256 => put_decimal_type(out, at, p, q, b",256"),
        kind::UNION => put_union(out, at, p, text, fields),
        _ => crate::names::put_leaf(out, at, kind, p),
    }
}
