// A sheet's numbers: a column read without plus, spare zeros or `-0`, at each width.
#![tactic(auto)]

pub mod digit;
pub mod put;

ghost use Rattle.std.specs.Prelude.{◌≡◌, ◌+◌, ◌^◌, ◌≤◌, drop};
ghost use Rattle.sheets.specs.Refusal.{bad_lines};
ghost use Rattle.sheets.specs.Number.{lean};
ghost use Rattle.sheets.specs.Format.{minus};
ghost use Rattle.decimal.specs.Digits.{digits_below};
ghost use Rattle.decimal.specs.Column.{column_below, signed_column, IsGreatest};
ghost use Rattle.sheets.specs.Answer.{found};

// Rust's `u64::MAX`, `i64::MAX`, `i32::MAX`.
const U64_MAX: u64 = 18446744073709551615;

const I64_MAX: u64 = 9223372036854775807;

const I32_MAX: u64 = 2147483647;

// The bytes from place at on, all of them digits, as a number of at most max.
fn digits(s: &[u8], at: usize, max: u64) -> Option<u64>
    ensures { found bad_lines result ≡ digits_below bad_lines (max + 1) 0 (drop at s.now) }
{
    let mut v: u64 = 0;
    for i in at..s.len() {
        v = crate::digit::after(v, s[i], max)?;
    }
    Some(v)
}

// Whether the bytes from place at on are some and have no spare zero in front.
fn lean(s: &[u8], at: usize) -> bool
    ensures { result ≡ lean (drop at s.now) }
{
    if s.len() <= at {
        return false;
    }
    if s.len() - at == 1 {
        return true;
    }
    s[at] != b'0'
}

// A column's number from place at on, at most max.
fn number(s: &[u8], at: usize, max: u64) -> Option<u64>
    ensures { found bad_lines result ≡ column_below (max + 1) (drop at s.now) }
{
    if !lean(s, at) {
        return None;
    }
    digits(s, at, max)
}

// -m, also where m as an i64 would not fit.
pub fn negated(m: u64) -> i64
    requires { m ≤ 2 ^ 63 }
    ensures { result ≡ minus m }
{
    if m == 0 {
        return 0;
    }
    -1 - ((m - 1) as i64)
}

// A column's signed number, at most max and at least -max - 1.
fn signed(s: &[u8], max: u64) -> Option<i64>
    requires { IsGreatest max }
    ensures { found bad_lines result ≡ signed_column (max + 1) s.now }
{
    if s.len() == 0 {
        return None;
    }
    if s[0] == b'-' {
        let m = number(s, 1, max + 1)?;
        if m == 0 {
            return None;
        }
        return Some(negated(m));
    }
    let n = number(s, 0, max)?;
    Some(n as i64)
}

pub fn read_u64(s: &[u8]) -> Option<u64>
    ensures { found bad_lines result ≡ column_below (2 ^ 64) s.now }
{
    number(s, 0, U64_MAX)
}

pub fn read_i64(s: &[u8]) -> Option<i64>
    ensures { found bad_lines result ≡ signed_column (2 ^ 63) s.now }
{
    signed(s, I64_MAX)
}

pub fn read_i32(s: &[u8]) -> Option<i32>
    ensures { found bad_lines result ≡ signed_column (2 ^ 31) s.now }
{
    let z = signed(s, I32_MAX)?;
    Some(z as i32)
}
