// What becomes of the line of a type that is no extension, by its columns `kind` and `p`.
ghost use Rattle.std.specs.Prelude.{◌≡◌, ◌<◌};
ghost use Rattle.sheets.specs.Kind.{Dictionary};
ghost use Rattle.mapping_line.specs.Changes.{interval_change, storage_kind, underlying_kind, line_change_of};

use datatypes::{kind, unit};

// `to_storage_recursive`, or `underlying_physical_type`.
#[derive(Drop)]
pub enum Change {
    Storage,
    Underlying,
}

// The line stays, becomes that of a type without columns of its own, or the mapping is not defined there.
#[derive(Drop)]
pub enum LineChange {
    Stays,
    Becomes(u64),
    Undefined,
}

// DayTime is physically DaysMs yet underlyingly Int64.
fn interval_change(unit: u64) -> LineChange
    ensures { result ≡ interval_change unit }
{
    match unit {
        unit::YEAR_MONTH => LineChange::Becomes(kind::INT32),
        unit::DAY_TIME => LineChange::Becomes(kind::INT64),
        _ => LineChange::Undefined,
    }
}

// A dictionary's values are not looked at: the integer types stand in `ArrowDataType` in the order of `IntegerType`.
fn underlying_change(kind: u64, p: u64) -> LineChange
    requires { kind ≡ Dictionary → p < 10 }
    ensures { result ≡ underlying_kind kind p }
{
    match kind {
        kind::DATE32 | kind::TIME32 | kind::DECIMAL32 => LineChange::Becomes(kind::INT32),
        kind::TIMESTAMP | kind::DATE64 | kind::TIME64 | kind::DECIMAL64 => LineChange::Becomes(
            kind::INT64,
        ),
        // Not among the above: two patterns that adjoin, as TIME64 and DURATION, would become a range.
        kind::DURATION => LineChange::Becomes(kind::INT64),
        kind::DECIMAL => LineChange::Becomes(kind::INT128),
        kind::INTERVAL => interval_change(p),
        kind::DICTIONARY => LineChange::Becomes(p + kind::INT8),
        kind::MAP | kind::DECIMAL256 | kind::UNION => LineChange::Undefined,
        _ => LineChange::Stays,
    }
}

fn storage_change(kind: u64) -> LineChange
    ensures { result ≡ storage_kind kind }
{
    match kind {
        kind::MAP | kind::UNION => LineChange::Undefined,
        _ => LineChange::Stays,
    }
}

pub fn line_change(change: Change, kind: u64, p: u64) -> LineChange
    requires { kind ≡ Dictionary → p < 10 }
    ensures { result ≡ line_change_of change kind p }
{
    match change {
        Change::Storage => storage_change(kind),
        Change::Underlying => underlying_change(kind, p),
    }
}
