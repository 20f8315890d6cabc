// The places of the units in `TimeUnit` and in `IntervalUnit`: the column `p` of a field sheet.
pub const SECOND: u64 = 0;

pub const MILLISECOND: u64 = 1;

pub const MICROSECOND: u64 = 2;

pub const NANOSECOND: u64 = 3;

pub const YEAR_MONTH: u64 = 0;

pub const DAY_TIME: u64 = 1;

pub const MONTH_DAY_NANO: u64 = 2;
