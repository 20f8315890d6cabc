// Lowercase hexadecimal text, read in place.
#![tactic(auto)]

pub mod put;

ghost use Rattle.std.specs.Prelude.{◌≡◌, true, ◌<◌, get_or};
ghost use Rattle.sheets.specs.Bytes.{same};
ghost use Rattle.hexadecimal.specs.Hex.{is_digit, value_of, is_hex, bytes_of, HasPair};

fn is_digit(b: u8) -> bool
    ensures { result ≡ is_digit b }
{
    if b < 48 {
        return false;
    }
    if b <= 57 {
        return true;
    }
    if b < 97 {
        return false;
    }
    b <= 102
}

// Whether s is pairs of digits. Nothing leaves the loop early, so that it compiles to vector instructions.
pub fn is_hex(s: &[u8]) -> bool
    ensures { result ≡ is_hex s.now }
{
    let mut ok = s.len() % 2 == 0;
    for &b in s {
        ok = ok & is_digit(b);
    }
    ok
}

// No branch, since the digits of a text follow no pattern: `0` to `9` are 30 to 39 in hexadecimal, `a` to `f` are 61 to 66.
fn value_of(b: u8) -> u8
    requires { is_digit b ≡ true }
    ensures { (result ≡ value_of b) × (result < 16) }
{
    b % 16 + 9 * (b / 64)
}

// The byte of pair k.
pub fn byte_at(s: &[u8], k: usize) -> u8
    requires { HasPair s.now k }
    ensures { result ≡ get_or (bytes_of s.now) k 0 }
{
    let i = 2 * k;
    16 * value_of(s[i]) + value_of(s[i + 1])
}

// Whether the bytes of s are those of key.
pub fn says(s: &[u8], key: &[u8]) -> bool
    requires { is_hex s.now ≡ true }
    ensures { result ≡ same (bytes_of s.now) key.now }
{
    let n = s.len() / 2;
    if n != key.len() {
        return false;
    }
    for (k, &b) in key.iter().enumerate() {
        if byte_at(s, k) != b {
            return false;
        }
    }
    true
}
