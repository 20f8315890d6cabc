// A dictionary's index type, read from its format.
ghost use Rattle.std.specs.Prelude.{◌≡◌, true};
ghost use Rattle.sheets.specs.Format.{to_integer_type};
ghost use Rattle.hexadecimal.specs.Hex.{is_hex, bytes_of};
ghost use Rattle.format.specs.Dictionary.{index_answer, index_of};

use datatypes::{IntegerType, kind};
use format_names::NameRead;
use refusal::Refusal;

// The index type of a kind: integers of at most 64 bits.
fn index_of(kind: u64) -> Result<IntegerType, Refusal>
    ensures { index_answer result ≡ index_of kind }
{
    match kind {
        kind::INT8 => Ok(IntegerType::Int8),
        kind::INT16 => Ok(IntegerType::Int16),
        kind::INT32 => Ok(IntegerType::Int32),
        kind::INT64 => Ok(IntegerType::Int64),
        kind::UINT8 => Ok(IntegerType::UInt8),
        kind::UINT16 => Ok(IntegerType::UInt16),
        kind::UINT32 => Ok(IntegerType::UInt32),
        kind::UINT64 => Ok(IntegerType::UInt64),
        _ => Err(Refusal::BadIndex),
    }
}

// A dictionary's index type: "outside `c C s S i I l L`" it is refused.
pub fn to_integer_type(f: &[u8]) -> Result<IntegerType, Refusal>
    requires { is_hex f.now ≡ true }
    ensures { index_answer result ≡ to_integer_type (bytes_of f.now) }
{
    match format_names::fixed_name(f) {
        NameRead::Leaf(kind, _) => index_of(kind),
        NameRead::Nested(kind) => index_of(kind),
        NameRead::Other => Err(Refusal::BadIndex),
    }
}
