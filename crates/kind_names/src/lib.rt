// The names of the kinds, as `ArrowDataType` spells them, each left-justified in 16 bytes. A `match` whose arms are constants compiles to a table that is only
// read, where an array of all names would be stored anew at each call.
#![tactic(auto)]

ghost use Rattle.std.specs.Prelude.{◌≡◌, ◌≤◌};
ghost use Rattle.sheets.specs.Kind.{Interval, Binary, Union};
ghost use Rattle.sheets.specs.KindNames.{kind_name};
ghost use Rattle.sheets.specs.Page.{kind_width, left_in};
ghost use Rattle.kind_names.specs.Halves.{both_halves};

use datatypes::kind;

// The first eight bytes of a name as one number, the lowest first, and the last eight.
#[derive(Drop)]
pub struct Halves {
    pub low: u64,
    pub high: u64,
}

// With the name known, constants.
fn in_halves(name: &[u8; 16]) -> Halves
    ensures { both_halves result ≡ name.now }
{
    Halves {
        low: words::word8_at(name, 0),
        high: words::word8_at(name, 8),
    }
}

// The name of a kind up to the last that has a unit.
fn early_name(kind: u64) -> Halves
    requires { kind ≤ Interval }
    ensures { both_halves result ≡ left_in kind_width (kind_name kind) }
{
    match kind {
        kind::NULL => in_halves(b"Null            "),
        kind::BOOLEAN => in_halves(b"Boolean         "),
        kind::INT8 => in_halves(b"Int8            "),
        kind::INT16 => in_halves(b"Int16           "),
        kind::INT32 => in_halves(b"Int32           "),
        kind::INT64 => in_halves(b"Int64           "),
        kind::INT128 => in_halves(b"Int128          "),
        kind::UINT8 => in_halves(b"UInt8           "),
        kind::UINT16 => in_halves(b"UInt16          "),
        kind::UINT32 => in_halves(b"UInt32          "),
        kind::UINT64 => in_halves(b"UInt64          "),
        kind::UINT128 => in_halves(b"UInt128         "),
        kind::FLOAT16 => in_halves(b"Float16         "),
        kind::FLOAT32 => in_halves(b"Float32         "),
        kind::FLOAT64 => in_halves(b"Float64         "),
        kind::TIMESTAMP => in_halves(b"Timestamp       "),
        kind::DATE32 => in_halves(b"Date32          "),
        kind::DATE64 => in_halves(b"Date64          "),
        kind::TIME32 => in_halves(b"Time32          "),
        kind::TIME64 => in_halves(b"Time64          "),
        kind::DURATION => in_halves(b"Duration        "),
        _ => in_halves(b"Interval        "),
    }
}

// The name of a later one.
fn late_name(kind: u64) -> Halves
    requires { (Binary ≤ kind) × (kind ≤ Union) }
    ensures { both_halves result ≡ left_in kind_width (kind_name kind) }
{
    match kind {
        kind::BINARY => in_halves(b"Binary          "),
        kind::FIXED_SIZE_BINARY => in_halves(b"FixedSizeBinary "),
        kind::LARGE_BINARY => in_halves(b"LargeBinary     "),
        kind::UTF8 => in_halves(b"Utf8            "),
        kind::LARGE_UTF8 => in_halves(b"LargeUtf8       "),
        kind::LIST => in_halves(b"List            "),
        kind::FIXED_SIZE_LIST => in_halves(b"FixedSizeList   "),
        kind::LARGE_LIST => in_halves(b"LargeList       "),
        kind::STRUCT => in_halves(b"Struct          "),
        kind::MAP => in_halves(b"Map             "),
        kind::DICTIONARY => in_halves(b"Dictionary      "),
        kind::DECIMAL => in_halves(b"Decimal         "),
        kind::DECIMAL32 => in_halves(b"Decimal32       "),
        kind::DECIMAL64 => in_halves(b"Decimal64       "),
        kind::DECIMAL256 => in_halves(b"Decimal256      "),
        kind::EXTENSION => in_halves(b"Extension       "),
        kind::BINARY_VIEW => in_halves(b"BinaryView      "),
        kind::UTF8_VIEW => in_halves(b"Utf8View        "),
        kind::UNKNOWN => in_halves(b"Unknown         "),
        _ => in_halves(b"Union           "),
    }
}

// The name of a kind.
pub fn name_of(kind: u64) -> Halves
    requires { kind ≤ Union }
    ensures { both_halves result ≡ left_in kind_width (kind_name kind) }
{
    if kind < kind::BINARY {
        return early_name(kind);
    }
    late_name(kind)
}
