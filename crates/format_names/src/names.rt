// The names of the table, each by the digits in which a sheet has it: as numbers, so that a name is compared, and written, in one step.
ghost use Rattle.std.specs.Prelude.{◌≡◌, [], ◌∷◌, ◌≤◌, ◌<◌, length, get_or};
ghost use Rattle.sheets.specs.Text.{hex};
ghost use Rattle.sheets.specs.Metadata.{little_value};
ghost use Rattle.format_names.specs.Names.{row_at, table_length, late_row, low_digits, high_digits};

use words::hex_digits::{four_pairs, pair_of, three_pairs, two_pairs};

// The rows of the table by their types; of a type with units the row of its first unit.
pub const NULL: usize = 0;

pub const BOOLEAN: usize = 1;

pub const INT8: usize = 2;

pub const UINT8: usize = 3;

pub const INT16: usize = 4;

pub const UINT16: usize = 5;

pub const INT32: usize = 6;

pub const UINT32: usize = 7;

pub const INT64: usize = 8;

pub const UINT64: usize = 9;

pub const INT128: usize = 10;

pub const UINT128: usize = 11;

pub const FLOAT16: usize = 12;

pub const FLOAT32: usize = 13;

pub const FLOAT64: usize = 14;

pub const BINARY: usize = 15;

pub const LARGE_BINARY: usize = 16;

pub const UTF8: usize = 17;

pub const LARGE_UTF8: usize = 18;

pub const DATE32: usize = 19;

pub const DATE64: usize = 20;

pub const TIME32: usize = 21;

pub const DURATION: usize = 25;

pub const INTERVAL: usize = 29;

pub const UTF8_VIEW: usize = 32;

pub const BINARY_VIEW: usize = 33;

pub const LIST: usize = 34;

pub const LARGE_LIST: usize = 35;

pub const MAP: usize = 36;

pub const STRUCT: usize = 37;

// The digits of a name of one byte, two, three; with the name known, a constant.
fn one(name: &[u8; 1]) -> u64
    ensures { result ≡ little_value (hex (get_or name.now 0 0 ∷ [])) }
{
    pair_of(name[0])
}

fn two(name: &[u8; 2]) -> u64
    ensures { result ≡ little_value (hex (get_or name.now 0 0 ∷ get_or name.now 1 0 ∷ [])) }
{
    two_pairs(name[0], name[1])
}

fn three(name: &[u8; 3]) -> u64
    ensures { result ≡ little_value (hex (get_or name.now 0 0 ∷ get_or name.now 1 0 ∷ get_or name.now 2 0 ∷ [])) }
{
    three_pairs(name[0], name[1], name[2])
}

// Of a name of seven bytes the digits of the first four, and of the last three.
fn first_four(name: &[u8; 7]) -> u64
    ensures { result ≡ little_value (hex (get_or name.now 0 0 ∷ get_or name.now 1 0 ∷ get_or name.now 2 0 ∷ get_or name.now 3 0 ∷ [])) }
{
    four_pairs(name[0], name[1], name[2], name[3])
}

fn last_three(name: &[u8; 7]) -> u64
    ensures { result ≡ little_value (hex (get_or name.now 4 0 ∷ get_or name.now 5 0 ∷ get_or name.now 6 0 ∷ [])) }
{
    three_pairs(name[4], name[5], name[6])
}

// The first eight digits of the name of row i: of the types that a kind alone tells, up to the texts.
fn early_digits(i: usize) -> u64
    requires { i < late_row }
    ensures { result ≡ low_digits (hex (row_at i).name) }
{
    match i {
        0 => one(b"n"),
        1 => one(b"b"),
        2 => one(b"c"),
        3 => one(b"C"),
        4 => one(b"s"),
        5 => one(b"S"),
        6 => one(b"i"),
        7 => one(b"I"),
        8 => one(b"l"),
        9 => one(b"L"),
        10 => first_four(b"_pli128"),
        11 => first_four(b"_plu128"),
        12 => one(b"e"),
        13 => one(b"f"),
        14 => one(b"g"),
        15 => one(b"z"),
        16 => one(b"Z"),
        17 => one(b"u"),
        _ => one(b"U"),
    }
}

// Of dates, times, durations and intervals, of the views, and of the types with children.
fn late_digits(i: usize) -> u64
    requires { (late_row ≤ i) × (i < table_length) }
    ensures { result ≡ low_digits (hex (row_at i).name) }
{
    match i {
        19 => three(b"tdD"),
        20 => three(b"tdm"),
        21 => three(b"tts"),
        22 => three(b"ttm"),
        23 => three(b"ttu"),
        24 => three(b"ttn"),
        25 => three(b"tDs"),
        26 => three(b"tDm"),
        27 => three(b"tDu"),
        28 => three(b"tDn"),
        29 => three(b"tiM"),
        30 => three(b"tiD"),
        31 => three(b"tin"),
        32 => two(b"vu"),
        33 => two(b"vz"),
        34 => two(b"+l"),
        35 => two(b"+L"),
        36 => two(b"+m"),
        _ => two(b"+s"),
    }
}

// The first eight digits of the name of row i, or all that it has.
pub fn low_digits(i: usize) -> u64
    requires { i < table_length }
    ensures { result ≡ low_digits (hex (row_at i).name) }
{
    if i < 19 {
        return early_digits(i);
    }
    late_digits(i)
}

// The digits after the first eight: those of names of seven bytes.
pub fn high_digits(i: usize) -> u64
    requires { i < table_length }
    ensures { result ≡ high_digits (hex (row_at i).name) }
{
    match i {
        10 => last_three(b"_pli128"),
        11 => last_three(b"_plu128"),
        _ => 0,
    }
}

// How many bytes the name of row i has.
pub fn name_length(i: usize) -> usize
    requires { i < table_length }
    ensures { result ≡ length (row_at i).name }
{
    if i < 10 {
        return 1;
    }
    if i < 12 {
        return 7;
    }
    if i < 19 {
        return 1;
    }
    if i < 32 {
        return 3;
    }
    2
}
