// Which fixed names a format is compared with: those of its length and its first byte, and no other.
ghost use Rattle.std.specs.Prelude.{◌≡◌, ◌<◌};
ghost use Rattle.sheets.specs.FixedNames.{chosen};
ghost use Rattle.hexadecimal.specs.Hex.{bytes_of};
ghost use Rattle.words.specs.Words.{low_bytes};
ghost use Rattle.format_names.specs.Candidates.{candidate_rows, AreCandidates};

use crate::{first_byte, names};
use datatypes::kind;

#[derive(Drop)]
pub enum Candidates {
    Nothing,
    // the first byte itself, which is the name of the type of this kind; with nothing after it, nothing is left to compare
    One(u64),
    // from which row of the table on, and how many
    Rows(usize, usize),
}

// The names of one byte.
fn of_one_byte(first: u64) -> Candidates
    requires { first < 65536 }
    ensures { AreCandidates 1 (bytes_of (low_bytes 2 first)) result }
{
    match first {
        first_byte::LOWER_N => Candidates::One(kind::NULL),
        first_byte::LOWER_B => Candidates::One(kind::BOOLEAN),
        first_byte::LOWER_C => Candidates::One(kind::INT8),
        first_byte::UPPER_C => Candidates::One(kind::UINT8),
        first_byte::LOWER_S => Candidates::One(kind::INT16),
        first_byte::UPPER_S => Candidates::One(kind::UINT16),
        first_byte::LOWER_I => Candidates::One(kind::INT32),
        first_byte::UPPER_I => Candidates::One(kind::UINT32),
        first_byte::LOWER_L => Candidates::One(kind::INT64),
        first_byte::UPPER_L => Candidates::One(kind::UINT64),
        first_byte::LOWER_E => Candidates::One(kind::FLOAT16),
        first_byte::LOWER_F => Candidates::One(kind::FLOAT32),
        first_byte::LOWER_G => Candidates::One(kind::FLOAT64),
        first_byte::LOWER_Z => Candidates::One(kind::BINARY),
        first_byte::UPPER_Z => Candidates::One(kind::LARGE_BINARY),
        first_byte::LOWER_U => Candidates::One(kind::UTF8),
        first_byte::UPPER_U => Candidates::One(kind::LARGE_UTF8),
        _ => Candidates::Nothing,
    }
}

// Views, and the types with children.
fn of_two_bytes(first: u64) -> Candidates
    requires { first < 65536 }
    ensures { AreCandidates 2 (bytes_of (low_bytes 2 first)) result }
{
    match first {
        first_byte::LOWER_V => Candidates::Rows(names::UTF8_VIEW, 2),
        first_byte::PLUS => Candidates::Rows(names::LIST, 4),
        _ => Candidates::Nothing,
    }
}

// Dates, times, durations and intervals.
fn of_three_bytes(first: u64) -> Candidates
    requires { first < 65536 }
    ensures { AreCandidates 3 (bytes_of (low_bytes 2 first)) result }
{
    match first {
        first_byte::LOWER_T => Candidates::Rows(names::DATE32, 13),
        _ => Candidates::Nothing,
    }
}

// Integers of 128 bits.
fn of_seven_bytes(first: u64) -> Candidates
    requires { first < 65536 }
    ensures { AreCandidates 7 (bytes_of (low_bytes 2 first)) result }
{
    match first {
        first_byte::UNDERSCORE => Candidates::Rows(names::INT128, 2),
        _ => Candidates::Nothing,
    }
}

// The names that a format of this length is compared with; its first byte is told by its two digits as one number.
pub fn candidates_of(length: usize, first: u64) -> Candidates
    requires { first < 65536 }
    ensures { AreCandidates length (bytes_of (low_bytes 2 first)) result }
{
    match length {
        1 => of_one_byte(first),
        2 => of_two_bytes(first),
        3 => of_three_bytes(first),
        7 => of_seven_bytes(first),
        _ => Candidates::Nothing,
    }
}
