// `PhysicalType`: the types by how their values lie in memory, and what the host gets for one.
ghost use Rattle.std.specs.Prelude.{◌≡◌};
ghost use Rattle.datatypes.specs.PhysicalPlaces.{bearing, places_answer, physical_of};

use crate::{IntegerType, PrimitiveType};

// The types by how their values lie in memory.
#[derive(Drop)]
pub enum PhysicalType {
    Null,
    Boolean,
    Primitive(PrimitiveType),
    Binary,
    FixedSizeBinary,
    LargeBinary,
    Utf8,
    LargeUtf8,
    List,
    FixedSizeList,
    LargeList,
    Struct,
    Union,
    Map,
    Dictionary(IntegerType),
    BinaryView,
    Utf8View,
}

// What the host gets for a physical type: its place, and that of the type that it carries, 0 if it carries none.
#[repr(C)]
#[derive(Drop)]
pub struct Places {
    pub place: u64,
    pub inner: u64,
}

impl Places {
    fn of(place: u64, inner: u64) -> Places
        ensures { places_answer result ≡ bearing place inner }
    {
        Places {
            place: place,
            inner: inner,
        }
    }
}

impl PhysicalType {
    pub fn places(self) -> Places
        ensures { places_answer result ≡ physical_of self }
    {
        match self {
            PhysicalType::Null => Places::of(0, 0),
            PhysicalType::Boolean => Places::of(1, 0),
            PhysicalType::Primitive(t) => Places::of(2, t.place()),
            PhysicalType::Binary => Places::of(3, 0),
            PhysicalType::FixedSizeBinary => Places::of(4, 0),
            PhysicalType::LargeBinary => Places::of(5, 0),
            PhysicalType::Utf8 => Places::of(6, 0),
            PhysicalType::LargeUtf8 => Places::of(7, 0),
            PhysicalType::List => Places::of(8, 0),
            PhysicalType::FixedSizeList => Places::of(9, 0),
            PhysicalType::LargeList => Places::of(10, 0),
            PhysicalType::Struct => Places::of(11, 0),
            PhysicalType::Union => Places::of(12, 0),
            PhysicalType::Map => Places::of(13, 0),
            PhysicalType::Dictionary(t) => Places::of(14, t.place()),
            PhysicalType::BinaryView => Places::of(15, 0),
            PhysicalType::Utf8View => Places::of(16, 0),
        }
    }
}
