// `to_physical_type` of a line, by its columns `kind` and `p`.
ghost use Rattle.std.specs.Prelude.{◌≡◌};
ghost use Rattle.sheets.specs.Mappings.{interval_physical};
ghost use Rattle.datatypes.specs.Physical.{primitive_physical, primitive_answer, primitive_only, physical_answer, index_physical, kind_physical};

use crate::physical_type::PhysicalType;
use crate::units::IntervalUnit;
use crate::{IntegerType, PrimitiveType, kind};

// How an Interval's values lie in memory, by its unit's place. No line has a place past the last unit's; there the definition has the last unit.
fn interval_primitive(place: u64) -> PrimitiveType
    ensures { primitive_physical result ≡ interval_physical place }
{
    let Some(unit) = IntervalUnit::at(place) else {
        return PrimitiveType::MonthDayMillis;
    };
    match unit {
        IntervalUnit::YearMonth => PrimitiveType::Int32,
        IntervalUnit::DayTime => PrimitiveType::DaysMs,
        IntervalUnit::MonthDayNano => PrimitiveType::MonthDayNano,
        IntervalUnit::MonthDayMillis => PrimitiveType::MonthDayMillis,
    }
}

// The primitive type of a kind's values, if they have one.
fn kind_primitive(kind: u64, p: u64) -> Option<PrimitiveType>
    ensures { primitive_answer result ≡ primitive_only kind p }
{
    match kind {
        kind::INT8 => Some(PrimitiveType::Int8),
        kind::INT16 => Some(PrimitiveType::Int16),
        kind::INT32 | kind::DATE32 | kind::TIME32 | kind::DECIMAL32 => Some(PrimitiveType::Int32),
        kind::INT64 | kind::DATE64 | kind::TIME64 | kind::TIMESTAMP | kind::DECIMAL64 => Some(
            PrimitiveType::Int64,
        ),
        // Not among the above: two patterns that adjoin, as TIME64 and DURATION, would become a range.
        kind::DURATION => Some(PrimitiveType::Int64),
        kind::INT128 | kind::DECIMAL => Some(PrimitiveType::Int128),
        kind::DECIMAL256 => Some(PrimitiveType::Int256),
        kind::UINT8 => Some(PrimitiveType::UInt8),
        kind::UINT16 => Some(PrimitiveType::UInt16),
        kind::UINT32 => Some(PrimitiveType::UInt32),
        kind::UINT64 => Some(PrimitiveType::UInt64),
        kind::UINT128 => Some(PrimitiveType::UInt128),
        kind::FLOAT16 => Some(PrimitiveType::Float16),
        kind::FLOAT32 => Some(PrimitiveType::Float32),
        kind::FLOAT64 => Some(PrimitiveType::Float64),
        kind::INTERVAL => Some(interval_primitive(p)),
        _ => None,
    }
}

// The physical type of a dictionary, by its index type's place.
fn dictionary_physical(index: u64) -> Option<PhysicalType>
    ensures { physical_answer result ≡ index_physical index }
{
    let t = IntegerType::at(index)?;
    Some(PhysicalType::Dictionary(t))
}

// The physical type of a kind whose values are primitive.
fn primitive_physical(kind: u64, p: u64) -> Option<PhysicalType>
    ensures { physical_answer result ≡ primitive_only kind p }
{
    let t = kind_primitive(kind, p)?;
    Some(PhysicalType::Primitive(t))
}

// `to_physical_type` of a line, by its columns `kind` and `p`. An extension is asked for by its inner line.
pub fn to_physical_type(kind: u64, p: u64) -> Option<PhysicalType>
    ensures { physical_answer result ≡ kind_physical kind p }
{
    match kind {
        kind::NULL => Some(PhysicalType::Null),
        kind::BOOLEAN => Some(PhysicalType::Boolean),
        kind::BINARY => Some(PhysicalType::Binary),
        kind::FIXED_SIZE_BINARY => Some(PhysicalType::FixedSizeBinary),
        kind::LARGE_BINARY => Some(PhysicalType::LargeBinary),
        kind::UTF8 => Some(PhysicalType::Utf8),
        kind::LARGE_UTF8 => Some(PhysicalType::LargeUtf8),
        kind::LIST => Some(PhysicalType::List),
        kind::FIXED_SIZE_LIST => Some(PhysicalType::FixedSizeList),
        kind::LARGE_LIST => Some(PhysicalType::LargeList),
        kind::STRUCT => Some(PhysicalType::Struct),
        kind::UNION => Some(PhysicalType::Union),
        kind::MAP => Some(PhysicalType::Map),
        kind::BINARY_VIEW => Some(PhysicalType::BinaryView),
        kind::UTF8_VIEW => Some(PhysicalType::Utf8View),
        kind::DICTIONARY => dictionary_physical(p),
        _ => primitive_physical(kind, p),
    }
}
