// What a field sheet's line says of its type by its kind: the conversions into a type.
ghost use Rattle.std.specs.Prelude.{◌≡◌, Some};
ghost use Rattle.sheets.specs.Mappings.{from_integer_type, from_primitive_type};
ghost use Rattle.datatypes.specs.Places.{integer_place, primitive_place};
ghost use Rattle.datatypes.specs.Dtypes.{leaf_dtype, interval_dtype, dtype_columns, type_columns};

use crate::units::IntervalUnit;
use crate::{IntegerType, PrimitiveType, kind};

// The columns `kind`, `p` and `q` of a type whose line needs no text and has none below.
#[derive(Drop)]
pub struct Dtype {
    pub kind: u64,
    pub p: u64,
    pub q: u64,
}

impl Dtype {
    fn leaf(kind: u64) -> Dtype
        ensures { result ≡ leaf_dtype kind 0 }
    {
        Dtype {
            kind: kind,
            p: 0,
            q: 0,
        }
    }

    fn interval(unit: IntervalUnit) -> Dtype
        ensures { result ≡ interval_dtype unit }
    {
        Dtype {
            kind: kind::INTERVAL,
            p: unit.place(),
            q: 0,
        }
    }

    // `From<IntegerType> for ArrowDataType`
    pub fn from_integer_type(item: IntegerType) -> Dtype
        ensures { type_columns (from_integer_type (integer_place item)) ≡ Some (dtype_columns result) }
    {
        match item {
            IntegerType::Int8 => Dtype::leaf(kind::INT8),
            IntegerType::Int16 => Dtype::leaf(kind::INT16),
            IntegerType::Int32 => Dtype::leaf(kind::INT32),
            IntegerType::Int64 => Dtype::leaf(kind::INT64),
            IntegerType::Int128 => Dtype::leaf(kind::INT128),
            IntegerType::UInt8 => Dtype::leaf(kind::UINT8),
            IntegerType::UInt16 => Dtype::leaf(kind::UINT16),
            IntegerType::UInt32 => Dtype::leaf(kind::UINT32),
            IntegerType::UInt64 => Dtype::leaf(kind::UINT64),
            IntegerType::UInt128 => Dtype::leaf(kind::UINT128),
        }
    }

    // `From<PrimitiveType> for ArrowDataType`
    pub fn from_primitive_type(item: PrimitiveType) -> Dtype
        ensures { type_columns (from_primitive_type (primitive_place item)) ≡ Some (dtype_columns result) }
    {
        match item {
            PrimitiveType::Int8 => Dtype::leaf(kind::INT8),
            PrimitiveType::Int16 => Dtype::leaf(kind::INT16),
            PrimitiveType::Int32 => Dtype::leaf(kind::INT32),
            PrimitiveType::Int64 => Dtype::leaf(kind::INT64),
            PrimitiveType::Int128 => Dtype::leaf(kind::INT128),
            PrimitiveType::Int256 => Dtype {
                kind: kind::DECIMAL256,
                p: 32,
                q: 32,
            },
            PrimitiveType::UInt8 => Dtype::leaf(kind::UINT8),
            PrimitiveType::UInt16 => Dtype::leaf(kind::UINT16),
            PrimitiveType::UInt32 => Dtype::leaf(kind::UINT32),
            PrimitiveType::UInt64 => Dtype::leaf(kind::UINT64),
            PrimitiveType::UInt128 => Dtype::leaf(kind::UINT128),
            PrimitiveType::Float16 => Dtype::leaf(kind::FLOAT16),
            PrimitiveType::Float32 => Dtype::leaf(kind::FLOAT32),
            PrimitiveType::Float64 => Dtype::leaf(kind::FLOAT64),
            PrimitiveType::DaysMs => Dtype::interval(IntervalUnit::DayTime),
            PrimitiveType::MonthDayNano => Dtype::interval(IntervalUnit::MonthDayNano),
            PrimitiveType::MonthDayMillis => Dtype::interval(IntervalUnit::MonthDayMillis),
        }
    }
}
