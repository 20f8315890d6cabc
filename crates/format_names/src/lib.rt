// The fixed names of formats: one table of names, kinds and units, for `to_dtype` and for `to_format`, and the heads before a colon that name a unit
// or a mode.
#![tactic(auto)]

pub mod candidates;
pub mod first_byte;
pub mod names;
pub mod short;

ghost use Rattle.std.specs.Prelude.{◌≡◌, true, ◌<◌, Some};
ghost use Rattle.sheets.specs.Format.{row_named};
ghost use Rattle.hexadecimal.specs.Hex.{is_hex, bytes_of};
ghost use Rattle.format_names.specs.Names.{table_length, row_at, rows_from, IsRow, HasDigits, DigitsOf, same_digits, HasRows, name_option, Told, leaf_of, leaf_named, head_unit, head_mode};

use crate::candidates::Candidates;
use datatypes::units::{TimeUnit, UnionMode};
use datatypes::{kind, unit};

// The kinds of the rows; as bytes, since an array is stored anew wherever it is looked at.
pub const KINDS: [u8; 38] = [
    kind::NULL as u8,
    kind::BOOLEAN as u8,
    kind::INT8 as u8,
    kind::UINT8 as u8,
    kind::INT16 as u8,
    kind::UINT16 as u8,
    kind::INT32 as u8,
    kind::UINT32 as u8,
    kind::INT64 as u8,
    kind::UINT64 as u8,
    kind::INT128 as u8,
    kind::UINT128 as u8,
    kind::FLOAT16 as u8,
    kind::FLOAT32 as u8,
    kind::FLOAT64 as u8,
    kind::BINARY as u8,
    kind::LARGE_BINARY as u8,
    kind::UTF8 as u8,
    kind::LARGE_UTF8 as u8,
    kind::DATE32 as u8,
    kind::DATE64 as u8,
    kind::TIME32 as u8,
    kind::TIME32 as u8,
    kind::TIME64 as u8,
    kind::TIME64 as u8,
    kind::DURATION as u8,
    kind::DURATION as u8,
    kind::DURATION as u8,
    kind::DURATION as u8,
    kind::INTERVAL as u8,
    kind::INTERVAL as u8,
    kind::INTERVAL as u8,
    kind::UTF8_VIEW as u8,
    kind::BINARY_VIEW as u8,
    kind::LIST as u8,
    kind::LARGE_LIST as u8,
    kind::MAP as u8,
    kind::STRUCT as u8,
];

const NO_UNIT: u64 = 0;

pub const UNITS: [u8; 38] = [
    NO_UNIT as u8,
    NO_UNIT as u8,
    NO_UNIT as u8,
    NO_UNIT as u8,
    NO_UNIT as u8,
    NO_UNIT as u8,
    NO_UNIT as u8,
    NO_UNIT as u8,
    NO_UNIT as u8,
    NO_UNIT as u8,
    NO_UNIT as u8,
    NO_UNIT as u8,
    NO_UNIT as u8,
    NO_UNIT as u8,
    NO_UNIT as u8,
    NO_UNIT as u8,
    NO_UNIT as u8,
    NO_UNIT as u8,
    NO_UNIT as u8,
    NO_UNIT as u8,
    NO_UNIT as u8,
    unit::SECOND as u8,
    unit::MILLISECOND as u8,
    unit::MICROSECOND as u8,
    unit::NANOSECOND as u8,
    unit::SECOND as u8,
    unit::MILLISECOND as u8,
    unit::MICROSECOND as u8,
    unit::NANOSECOND as u8,
    unit::YEAR_MONTH as u8,
    unit::DAY_TIME as u8,
    unit::MONTH_DAY_NANO as u8,
    NO_UNIT as u8,
    NO_UNIT as u8,
    NO_UNIT as u8,
    NO_UNIT as u8,
    NO_UNIT as u8,
    NO_UNIT as u8,
];

// A row of the table, but for its name.
#[derive(Drop)]
pub struct NameRow {
    pub kind: u64,
    pub unit: u64,
}

// The type that a fixed name tells: its kind and its unit, or the kind of one with children.
#[derive(Drop)]
pub enum NameRead {
    Leaf(u64, u64),
    Nested(u64),
    Other,
}

// What row i tells.
pub fn row_at(i: usize) -> NameRow
    requires { i < table_length }
    ensures { IsRow i result }
{
    NameRow {
        kind: buffer::wide(KINDS[i]),
        unit: buffer::wide(UNITS[i]),
    }
}

// The type whose name row i has.
fn type_at(i: usize) -> NameRead
    requires { i < table_length }
    ensures { (name_option result ≡ Some ((row_at i).kind, (row_at i).unit)) × Told result }
{
    let r = row_at(i);
    if names::LIST <= i {
        return NameRead::Nested(r.kind);
    }
    NameRead::Leaf(r.kind, r.unit)
}

// A format's digits as numbers: the first eight, and those after them.
#[derive(Clone, Copy)]
pub struct Digits {
    pub low: u64,
    pub high: u64,
}

// The digits of a format of two bytes, three or seven.
fn digits_of(f: &[u8]) -> Digits
    requires { HasDigits f.now }
    ensures { DigitsOf f.now result }
{
    match f.len() / 2 {
        2 => Digits {
            low: words::word4_at(f, 0),
            high: 0,
        },
        3 => Digits {
            low: words::word6_at(f, 0),
            high: 0,
        },
        _ => Digits {
            low: words::word8_at(f, 0),
            high: words::word6_at(f, 8),
        },
    }
}

// Whether the name of row i has these digits.
fn has_digits(i: usize, d: Digits) -> bool
    requires { i < table_length }
    ensures { result ≡ same_digits (row_at i).name d }
{
    if names::low_digits(i) != d.low {
        return false;
    }
    names::high_digits(i) == d.high
}

// The type whose name f is, if it is that of one of `count` rows from row `row` on, which all have names of its length.
fn named(f: &[u8], row: usize, count: usize) -> NameRead
    requires { HasRows f.now row count }
    ensures { (name_option result ≡ leaf_of (row_named (bytes_of f.now) (rows_from row count))) × Told result }
{
    let d = digits_of(f);
    for i in 0..count {
        if has_digits(row + i, d) {
            return type_at(row + i);
        }
    }
    NameRead::Other
}

// The type that a fixed name tells: f is compared with the candidates of its length and first byte alone.
pub fn fixed_name(f: &[u8]) -> NameRead
    requires { is_hex f.now ≡ true }
    ensures { (name_option result ≡ leaf_named (bytes_of f.now)) × Told result }
{
    let n = f.len() / 2;
    if n == 0 {
        return NameRead::Other;
    }
    match candidates::candidates_of(n, words::word2_at(f, 0)) {
        Candidates::Nothing => NameRead::Other,
        Candidates::One(kind) => NameRead::Leaf(kind, NO_UNIT),
        Candidates::Rows(row, count) => named(f, row, count),
    }
}

// The unit of a timestamp whose head is h: `ts` and the unit's letter.
pub fn head_unit(h: &[u8]) -> Option<TimeUnit>
    requires { is_hex h.now ≡ true }
    ensures { result ≡ head_unit (bytes_of h.now) }
{
    if h.len() != 6 {
        return None;
    }
    if !hexadecimal::says(&h[0..4], b"ts") {
        return None;
    }
    match hexadecimal::byte_at(h, 2) {
        b's' => Some(TimeUnit::Second),
        b'm' => Some(TimeUnit::Millisecond),
        b'u' => Some(TimeUnit::Microsecond),
        b'n' => Some(TimeUnit::Nanosecond),
        _ => None,
    }
}

// The mode of a union whose head is h: `+u` and the mode's letter.
pub fn head_mode(h: &[u8]) -> Option<UnionMode>
    requires { is_hex h.now ≡ true }
    ensures { result ≡ head_mode (bytes_of h.now) }
{
    if h.len() != 6 {
        return None;
    }
    if !hexadecimal::says(&h[0..4], b"+u") {
        return None;
    }
    match hexadecimal::byte_at(h, 2) {
        b'd' => Some(UnionMode::Dense),
        b's' => Some(UnionMode::Sparse),
        _ => None,
    }
}
