// `IntegerType` and `PrimitiveType` of the source. `place` is the number that the sheets and the host have for a case, from 0 in declaration order;
// `at` gives the case at a place.
#![tactic(auto)]

pub mod dtype;
pub mod kind;
pub mod physical_type;
pub mod to_physical_type;
pub mod unit;
pub mod units;

ghost use Rattle.std.specs.Prelude.{◌≡◌};
ghost use Rattle.datatypes.specs.Places.{integer_place, primitive_place};
ghost use Rattle.datatypes.specs.At.{first_at, integer_types, primitive_types};

// A dictionary's index type.
#[derive(Drop)]
pub enum IntegerType {
    Int8,
    Int16,
    Int32,
    Int64,
    Int128,
    UInt8,
    UInt16,
    UInt32,
    UInt64,
    UInt128,
}

impl IntegerType {
    pub fn place(self) -> u64
        ensures { result ≡ integer_place self }
    {
        self as u64
    }

    pub fn at(place: u64) -> Option<IntegerType>
        ensures { result ≡ first_at integer_place place integer_types }
    {
        match place {
            0 => Some(IntegerType::Int8),
            1 => Some(IntegerType::Int16),
            2 => Some(IntegerType::Int32),
            3 => Some(IntegerType::Int64),
            4 => Some(IntegerType::Int128),
            5 => Some(IntegerType::UInt8),
            6 => Some(IntegerType::UInt16),
            7 => Some(IntegerType::UInt32),
            8 => Some(IntegerType::UInt64),
            9 => Some(IntegerType::UInt128),
            _ => None,
        }
    }
}

// The types of fixed size.
#[derive(Drop)]
pub enum PrimitiveType {
    Int8,
    Int16,
    Int32,
    Int64,
    Int128,
    Int256,
    UInt8,
    UInt16,
    UInt32,
    UInt64,
    UInt128,
    Float16,
    Float32,
    Float64,
    DaysMs,
    MonthDayNano,
    MonthDayMillis,
}

impl PrimitiveType {
    pub fn place(self) -> u64
        ensures { result ≡ primitive_place self }
    {
        self as u64
    }

    pub fn at(place: u64) -> Option<PrimitiveType>
        ensures { result ≡ first_at primitive_place place primitive_types }
    {
        match place {
            0 => Some(PrimitiveType::Int8),
            1 => Some(PrimitiveType::Int16),
            2 => Some(PrimitiveType::Int32),
            3 => Some(PrimitiveType::Int64),
            4 => Some(PrimitiveType::Int128),
            5 => Some(PrimitiveType::Int256),
            6 => Some(PrimitiveType::UInt8),
            7 => Some(PrimitiveType::UInt16),
            8 => Some(PrimitiveType::UInt32),
            9 => Some(PrimitiveType::UInt64),
            10 => Some(PrimitiveType::UInt128),
            11 => Some(PrimitiveType::Float16),
            12 => Some(PrimitiveType::Float32),
            13 => Some(PrimitiveType::Float64),
            14 => Some(PrimitiveType::DaysMs),
            15 => Some(PrimitiveType::MonthDayNano),
            16 => Some(PrimitiveType::MonthDayMillis),
            _ => None,
        }
    }
}
