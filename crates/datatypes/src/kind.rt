// The places of the types in `ArrowDataType`: the column `kind` of a field sheet.
pub const NULL: u64 = 0;

pub const BOOLEAN: u64 = 1;

pub const INT8: u64 = 2;

pub const INT16: u64 = 3;

pub const INT32: u64 = 4;

pub const INT64: u64 = 5;

pub const INT128: u64 = 6;

pub const UINT8: u64 = 7;

pub const UINT16: u64 = 8;

pub const UINT32: u64 = 9;

pub const UINT64: u64 = 10;

pub const UINT128: u64 = 11;

pub const FLOAT16: u64 = 12;

pub const FLOAT32: u64 = 13;

pub const FLOAT64: u64 = 14;

pub const TIMESTAMP: u64 = 15;

pub const DATE32: u64 = 16;

pub const DATE64: u64 = 17;

pub const TIME32: u64 = 18;

pub const TIME64: u64 = 19;

pub const DURATION: u64 = 20;

pub const INTERVAL: u64 = 21;

pub const BINARY: u64 = 22;

pub const FIXED_SIZE_BINARY: u64 = 23;

pub const LARGE_BINARY: u64 = 24;

pub const UTF8: u64 = 25;

pub const LARGE_UTF8: u64 = 26;

pub const LIST: u64 = 27;

pub const FIXED_SIZE_LIST: u64 = 28;

pub const LARGE_LIST: u64 = 29;

pub const STRUCT: u64 = 30;

pub const MAP: u64 = 31;

pub const DICTIONARY: u64 = 32;

pub const DECIMAL: u64 = 33;

pub const DECIMAL32: u64 = 34;

pub const DECIMAL64: u64 = 35;

pub const DECIMAL256: u64 = 36;

pub const EXTENSION: u64 = 37;

pub const BINARY_VIEW: u64 = 38;

pub const UTF8_VIEW: u64 = 39;

pub const UNKNOWN: u64 = 40;

pub const UNION: u64 = 41;
