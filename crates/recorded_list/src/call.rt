// The calls by their codes in the recorded list of answers (differential/ANSWERS.md).
pub const IMPORT: u64 = 0;

pub const EXPORT: u64 = 1;

pub const PLAIN: u64 = 2;

pub const TO_PHYSICAL_TYPE: u64 = 3;

pub const UNDERLYING_PHYSICAL_TYPE: u64 = 4;

pub const TO_STORAGE: u64 = 5;

pub const TO_STORAGE_RECURSIVE: u64 = 6;

pub const INNER_DTYPE: u64 = 7;

pub const GET_CHILD: u64 = 8;

pub const IS_NESTED: u64 = 9;

pub const CONTAINS_DICTIONARY: u64 = 10;

pub const FROM_INTEGER_TYPE: u64 = 11;

pub const FROM_PRIMITIVE_TYPE: u64 = 12;

pub const PAGE: u64 = 13;

pub const MEASURE_IMPORT: u64 = 14;

pub const MEASURE_EXPORT: u64 = 15;

pub const STRICT_EXPORT: u64 = 16;

// The codes are the numbers below this.
pub const CALLS: usize = 17;
