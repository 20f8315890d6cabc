// The field line of a leaf recognised at once, as most lines are: a kind without a unit, a name in ASCII, no pairs, nothing below.
#![tactic(auto)]

ghost use Rattle.std.specs.Prelude.{◌≡◌, [], ◌∷◌, ◌+◌, ◌≤◌, length};
ghost use Rattle.columns.specs.Columns.{part};
ghost use Rattle.field_leaf.specs.FieldLeaves.{is_short, kind_of, kind_end, field_leaf_in, leaf_option};

use buffer::wide;
use datatypes::kind;

// After a leaf's name its line has 7 bytes: ` n ~ 0` and byte 10.
pub const AFTER_NAME: usize = 7;

// A kind has one digit or more and a name one byte or more, so a leaf's line has 19 bytes or more.
const SHORTEST: usize = 19;

// ` 0 0 ~ ~` as one number, the lowest byte first.
const AFTER_KIND: u64 = 0x7e207e2030203020;

// ` 0 ~` and ` 1 ~`.
const NOT_NULLABLE: u64 = 0x7e203020;

const NULLABLE: u64 = 0x7e203120;

// `~ 0` and byte 10.
const LINE_END: u64 = 0x0a30207e;

// A leaf that has no unit. Numbers and texts, as most are, are told first.
fn is_short(kind: u64) -> bool
    ensures { result ≡ is_short kind }
{
    if kind <= kind::FLOAT64 {
        return true;
    }
    if kind < kind::LARGE_BINARY {
        return ((kind::DATE32 <= kind) & (kind <= kind::DATE64)) | (kind == kind::BINARY);
    }
    if kind <= kind::LARGE_UTF8 {
        return true;
    }
    (kind::BINARY_VIEW <= kind) & (kind <= kind::UNKNOWN)
}

// The kind of one digit: each of them is a leaf's that has no unit.
fn one_digit(a: u8) -> Option<u64>
    ensures { result ≡ kind_of (a ∷ []) }
{
    if a < b'0' {
        return None;
    }
    if b'9' < a {
        return None;
    }
    Some(wide(a - b'0'))
}

// The kind of two digits.
fn two_digits(a: u8, b: u8) -> Option<u64>
    ensures { result ≡ kind_of (a ∷ b ∷ []) }
{
    if a <= b'0' {
        return None;
    }
    if b'9' < a {
        return None;
    }
    if b < b'0' {
        return None;
    }
    if b'9' < b {
        return None;
    }
    let kind = wide(a - b'0') * 10 + wide(b - b'0');
    if is_short(kind) {
        return Some(kind);
    }
    None
}

// Where the kind's digits end.
fn kind_end(s: &[u8], at: usize) -> usize
    requires { at + 2 ≤ length s.now }
    ensures { (result ≡ kind_end s.now at) × (at + 1 ≤ result) × (result ≤ at + 2) }
{
    if s[at + 1] == b' ' {
        return at + 1;
    }
    at + 2
}

// The kind that they say.
fn kind_at(s: &[u8], at: usize) -> Option<u64>
    requires { at + 2 ≤ length s.now }
    ensures { result ≡ kind_of (part s.now at (kind_end s.now at)) }
{
    if s[at + 1] == b' ' {
        return one_digit(s[at]);
    }
    two_digits(s[at], s[at + 1])
}

// A leaf's line: its kind, where its name begins and where it ends, and `nullable`.
#[derive(Drop)]
pub struct FieldLeaf {
    pub kind: u64,
    pub start: usize,
    pub end: usize,
    pub nullable: u64,
}

// The leaf's line from place at on. Eight bytes after the kind are compared as one number, and so are four and four after the name.
pub fn leaf_at(s: &[u8], at: usize) -> Option<FieldLeaf>
    ensures { leaf_option result ≡ field_leaf_in s.now at }
{
    if s.len() < SHORTEST {
        return None;
    }
    if s.len() - SHORTEST < at {
        return None;
    }
    let kind = kind_at(s, at)?;
    let k = kind_end(s, at);
    if words::word8_at(s, k) != AFTER_KIND {
        return None;
    }
    if s[k + 8] != b' ' {
        return None;
    }
    let from = k + 9;
    let e = columns::ascii_pairs::pairs_from(s, from);
    if e == from {
        return None;
    }
    if s.len() - e < AFTER_NAME {
        return None;
    }
    if words::word4_at(s, e + 3) != LINE_END {
        return None;
    }
    let w = words::word4_at(s, e);
    if w == NOT_NULLABLE {
        return Some(FieldLeaf {
            kind,
            start: from,
            end: e,
            nullable: 0,
        });
    }
    if w == NULLABLE {
        return Some(FieldLeaf {
            kind,
            start: from,
            end: e,
            nullable: 1,
        });
    }
    None
}
