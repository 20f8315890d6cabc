// The Rust's `parse::<usize>`, at 64 bits, and `parse::<i32>`, of hexadecimal text.
#![tactic(auto)]

ghost use Rattle.std.specs.Prelude.{◌≡◌, true, ◌+◌, drop};
ghost use Rattle.sheets.specs.Format.{drop_plus, read_size, read_id};
ghost use Rattle.hexadecimal.specs.Hex.{is_hex, bytes_of};
ghost use Rattle.parse.specs.Parse.{number_below};
ghost use Rattle.sheets.specs.Answer.{found};
ghost use Rattle.sheets.specs.Refusal.{bad_number};

// Rust's `usize::MAX`, at 64 bits, `i32::MAX`, and what `i32::MIN` is the negative of.
const USIZE_MAX: u64 = 18446744073709551615;

const I32_MAX: u64 = 2147483647;

const I32_MIN: u64 = 2147483648;

// The digits from byte at on, as a number of at most max.
fn number_below(s: &[u8], at: usize, max: u64) -> Option<u64>
    requires { is_hex s.now ≡ true }
    ensures { found bad_number result ≡ number_below (max + 1) (drop at (bytes_of s.now)) }
{
    let n = s.len() / 2;
    if n <= at {
        return None;
    }
    let mut v: u64 = 0;
    for i in at..n {
        v = decimal::digit::after(v, hexadecimal::byte_at(s, i), max)?;
    }
    Some(v)
}

// The place after a plus, if the bytes begin with one.
fn after_plus(s: &[u8]) -> usize
    requires { is_hex s.now ≡ true }
    ensures { drop result (bytes_of s.now) ≡ drop_plus (bytes_of s.now) }
{
    if s.len() < 2 {
        return 0;
    }
    if hexadecimal::byte_at(s, 0) == b'+' {
        return 1;
    }
    0
}

pub fn parse_usize(s: &[u8]) -> Option<u64>
    requires { is_hex s.now ≡ true }
    ensures { found bad_number result ≡ read_size (bytes_of s.now) }
{
    number_below(s, after_plus(s), USIZE_MAX)
}

pub fn parse_i32(s: &[u8]) -> Option<i32>
    requires { is_hex s.now ≡ true }
    ensures { found bad_number result ≡ read_id (bytes_of s.now) }
{
    if s.len() < 2 {
        return None;
    }
    if hexadecimal::byte_at(s, 0) == b'-' {
        let m = number_below(s, 1, I32_MIN)?;
        return Some(decimal::negated(m) as i32);
    }
    let n = number_below(s, after_plus(s), I32_MAX)?;
    Some(n as i32)
}
