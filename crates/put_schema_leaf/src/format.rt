// The format of a type that has no unit, as the digits of its fixed name.
ghost use Rattle.std.specs.Prelude.{◌≡◌, ◌<◌, Some};
ghost use Rattle.sheets.specs.Text.{hex};
ghost use Rattle.format_names.specs.Names.{row_at, table_length};
ghost use Rattle.put_schema_leaf.specs.Formats.{digits_option, format_digits};

use datatypes::kind;
use format_names::names;

// The first eight digits as one number, the lowest byte first, those after them, and how many there are.
#[derive(Drop)]
pub struct Digits {
    pub low: u64,
    pub high: u64,
    pub len: usize,
}

// The digits of the name of row i; with the row known, constants.
fn named(i: usize) -> Option<Digits>
    requires { i < table_length }
    ensures { digits_option result ≡ Some (hex (row_at i).name) }
{
    Some(Digits {
        low: names::low_digits(i),
        high: names::high_digits(i),
        len: 2 * names::name_length(i),
    })
}

// The format of a kind, if it has no unit and a fixed name.
pub fn format_of(kind: u64) -> Option<Digits>
    ensures { digits_option result ≡ format_digits kind }
{
    match kind {
        kind::NULL => named(names::NULL),
        kind::BOOLEAN => named(names::BOOLEAN),
        kind::INT8 => named(names::INT8),
        kind::INT16 => named(names::INT16),
        kind::INT32 => named(names::INT32),
        kind::INT64 => named(names::INT64),
        kind::INT128 => named(names::INT128),
        kind::UINT8 => named(names::UINT8),
        kind::UINT16 => named(names::UINT16),
        kind::UINT32 => named(names::UINT32),
        kind::UINT64 => named(names::UINT64),
        kind::UINT128 => named(names::UINT128),
        kind::FLOAT16 => named(names::FLOAT16),
        kind::FLOAT32 => named(names::FLOAT32),
        kind::FLOAT64 => named(names::FLOAT64),
        kind::DATE32 => named(names::DATE32),
        kind::DATE64 => named(names::DATE64),
        kind::BINARY => named(names::BINARY),
        kind::LARGE_BINARY => named(names::LARGE_BINARY),
        kind::UTF8 => named(names::UTF8),
        kind::LARGE_UTF8 => named(names::LARGE_UTF8),
        kind::BINARY_VIEW => named(names::BINARY_VIEW),
        kind::UTF8_VIEW => named(names::UTF8_VIEW),
        _ => None,
    }
}
