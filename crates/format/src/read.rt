// What a format string says, read in place from its hexadecimal text: the formats of `to_dtype`.
ghost use Rattle.std.specs.Prelude.{◌≡◌, true, ◌∷◌, ◌+◌, take, drop};
ghost use Rattle.sheets.specs.Format.{read_cut, read_other, read_format, cut};
ghost use Rattle.sheets.specs.FixedNames.{is_nested, named_format};
ghost use Rattle.hexadecimal.specs.Hex.{is_hex, bytes_of};
ghost use Rattle.sheets.specs.Parts.{parts_from};
ghost use Rattle.format.specs.Parts.{HasBytes, HasPart, format_part};
ghost use Rattle.format.specs.Formats.{textless_format, Reads, decimal_of, decimal_format, IsOtherHead};

use crate::parts;
use datatypes::kind;
use datatypes::units::{TimeUnit, UnionMode};
use format_names::NameRead;
use refusal::Refusal;

// A type that needs no text.
#[derive(Clone, Copy)]
pub enum Textless {
    // kind and unit
    Leaf(u64, u64),
    FixedSizeBinary(u64),
    // width, precision and scale
    Decimal(u64, u64, u64),
    List,
    LargeList,
    FixedSizeList(u64),
    // whether its keys are sorted
    Map(bool),
    Struct,
}

// What a format says; of a timestamp and of a union the place in its hexadecimal text where the timezone and the ids begin.
#[derive(Drop)]
pub enum Format {
    Numbers(Textless),
    Timestamp(TimeUnit, usize),
    Union(UnionMode, usize),
}

// The width of a decimal whose format has none.
const WIDTH: u64 = 128;

// A decimal whose precision stands before byte i, its scale after it and before byte e.
fn decimal_of(f: &[u8], width: u64, at: usize, i: usize, e: usize) -> Result<Format, Refusal>
    requires { HasPart f.now at i × HasPart f.now (i + 1) e }
    ensures { Reads f.now (decimal_of width (format_part at i (bytes_of f.now)) (format_part (i + 1) e (bytes_of f.now))) result }
{
    let Some(precision) = parse::parse_usize(parts::part_of(f, at, i)) else {
        return Err(Refusal::BadNumber);
    };
    let Some(scale) = parse::parse_usize(parts::part_of(f, i + 1, e)) else {
        return Err(Refusal::BadNumber);
    };
    Ok(Format::Numbers(Textless::Decimal(width, precision, scale)))
}

// A decimal of three parts: the width, from byte j + 1 on, is read first.
fn wide_decimal(f: &[u8], at: usize, i: usize, j: usize) -> Result<Format, Refusal>
    requires { HasPart f.now at i × HasPart f.now (i + 1) j × HasBytes f.now (j + 1) }
    ensures { Reads f.now (decimal_format (format_part at i (bytes_of f.now) ∷ format_part (i + 1) j (bytes_of f.now) ∷ parts_from (bytes_of f.now) (j + 1))) result }
{
    let n = f.len() / 2;
    let end = parts::place_of(f, j + 1, b',');
    if end == n {
        let Some(width) = parse::parse_usize(parts::part_of(f, j + 1, end)) else {
            return Err(Refusal::BadNumber);
        };
        return decimal_of(f, width, at, i, j);
    }
    Err(Refusal::BadDecimal)
}

// A decimal whose parts stand from byte `at` on: two or three.
fn read_decimal(f: &[u8], at: usize) -> Result<Format, Refusal>
    requires { HasBytes f.now at }
    ensures { Reads f.now (decimal_format (parts_from (bytes_of f.now) at)) result }
{
    let n = f.len() / 2;
    let i = parts::place_of(f, at, b',');
    if n <= i {
        return Err(Refusal::BadDecimal);
    }
    let j = parts::place_of(f, i + 1, b',');
    if n <= j {
        return decimal_of(f, WIDTH, at, i, j);
    }
    wide_decimal(f, at, i, j)
}

// A format with the head h before its colon, which names no unit and no mode, and with numbers from byte `at` on.
fn read_sizes(f: &[u8], at: usize, h: &[u8]) -> Result<Format, Refusal>
    requires { HasBytes f.now at × IsOtherHead h.now }
    ensures { Reads f.now (read_cut (bytes_of h.now) (drop at (bytes_of f.now))) result }
{
    let n = f.len() / 2;
    if hexadecimal::says(h, b"w") {
        let Some(size) = parse::parse_usize(parts::part_of(f, at, n)) else {
            return Err(Refusal::BadNumber);
        };
        return Ok(Format::Numbers(Textless::FixedSizeBinary(size)));
    }
    if hexadecimal::says(h, b"+w") {
        let Some(size) = parse::parse_usize(parts::part_of(f, at, n)) else {
            return Err(Refusal::BadNumber);
        };
        return Ok(Format::Numbers(Textless::FixedSizeList(size)));
    }
    if hexadecimal::says(h, b"d") {
        return read_decimal(f, at);
    }
    Err(Refusal::UnsupportedFormat)
}

// A format whose first colon is byte k.
fn read_cut(f: &[u8], k: usize) -> Result<Format, Refusal>
    requires { HasBytes f.now (k + 1) }
    ensures { Reads f.now (read_cut (take k (bytes_of f.now)) (drop (k + 1) (bytes_of f.now))) result }
{
    let h = parts::part_of(f, 0, k);
    if let Some(unit) = format_names::head_unit(h) {
        return Ok(Format::Timestamp(unit, 2 * k + 2));
    }
    if let Some(mode) = format_names::head_mode(h) {
        return Ok(Format::Union(mode, 2 * k + 2));
    }
    read_sizes(f, k + 1, h)
}

fn read_other(f: &[u8]) -> Result<Format, Refusal>
    requires { is_hex f.now ≡ true }
    ensures { Reads f.now (read_other (cut (bytes_of f.now))) result }
{
    let k = parts::place_of(f, 0, b':');
    if k == f.len() / 2 {
        return Err(Refusal::UnsupportedFormat);
    }
    read_cut(f, k)
}

// The type with children that a fixed name of this kind tells. `sorted` says that the keys of a map are.
fn nested_type(kind: u64, sorted: bool) -> Textless
    requires { is_nested kind ≡ true }
    ensures { textless_format result ≡ named_format sorted kind 0 }
{
    match kind {
        kind::LIST => Textless::List,
        kind::LARGE_LIST => Textless::LargeList,
        kind::MAP => Textless::Map(sorted),
        _ => Textless::Struct,
    }
}

// What a format says, but for a dictionary's. `sorted` says that the keys of a map are.
pub fn read_format(f: &[u8], sorted: bool) -> Result<Format, Refusal>
    requires { is_hex f.now ≡ true }
    ensures { Reads f.now (read_format sorted (bytes_of f.now)) result }
{
    match format_names::fixed_name(f) {
        NameRead::Leaf(kind, unit) => Ok(Format::Numbers(Textless::Leaf(kind, unit))),
        NameRead::Nested(kind) => Ok(Format::Numbers(nested_type(kind, sorted))),
        NameRead::Other => read_other(f),
    }
}
