// The texts in the columns of a line: found and tested, or found where they are known to stand.
ghost use Rattle.std.specs.Prelude.{◌≡◌, true, drop};
ghost use Rattle.sheets.specs.Rule.{passes};
ghost use Rattle.sheets.specs.Bytes.{lacks, space};
ghost use Rattle.hexadecimal.specs.Hex.{is_hex, bytes_of};
ghost use Rattle.columns.specs.Columns.{stop_from, column_of, one_of};
ghost use Rattle.columns.specs.TextColumns.{is_mark, is_text, is_zero, zeros_apart, is_cstring, HasText, HasPairs};

use crate::{BLOCK, ascii_pairs};

// `~` is a null pointer, `-` an empty text.
fn is_mark(b: u8) -> bool
    ensures { result ≡ is_mark b }
{
    if b == b'~' {
        return true;
    }
    b == b'-'
}

fn is_text(s: &[u8]) -> bool
    ensures { result ≡ is_text s.now }
{
    if s.len() == 0 {
        return false;
    }
    if s.len() == 1 {
        return is_mark(s[0]);
    }
    hexadecimal::is_hex(s)
}

// Whether the digits are 00.
fn is_zero(a: u8, b: u8) -> bool
    ensures { result ≡ is_zero a b }
{
    if a != b'0' {
        return false;
    }
    b == b'0'
}

// Whether no two zeros adjoin in s: then no pair is 00. This compiles to good vector instructions; the test of each pair by itself does not.
fn zeros_apart(s: &[u8]) -> bool
    ensures { result ≡ zeros_apart s.now }
{
    let mut ok = true;
    for k in 1..s.len() {
        ok = ok & !is_zero(s[k - 1], s[k]);
    }
    ok
}

// Whether no pair of s is 00, each pair tested.
fn pairs_lack_zero(s: &[u8]) -> bool
    requires { is_hex s.now ≡ true }
    ensures { result ≡ passes (lacks 0 (bytes_of s.now)) }
{
    let mut ok = true;
    for k in 0..s.len() / 2 {
        ok = ok & !is_zero(s[2 * k], s[2 * k + 1]);
    }
    ok
}

// Whether no pair of s is 00.
pub fn lacks_zero(s: &[u8]) -> bool
    requires { is_hex s.now ≡ true }
    ensures { result ≡ passes (lacks 0 (bytes_of s.now)) }
{
    if zeros_apart(s) {
        return true;
    }
    pairs_lack_zero(s)
}

fn is_c_string(s: &[u8]) -> bool
    ensures { result ≡ is_cstring s.now }
{
    if !is_text(s) {
        return false;
    }
    if s.len() == 1 {
        return true;
    }
    lacks_zero(s)
}

// Whether the column from place at on is a mark, and a space ends it.
fn one_mark(s: &[u8], at: usize) -> bool
    ensures { result ≡ one_of is_mark space (drop at s.now) }
{
    if !crate::one_byte(s, at, b' ') {
        return false;
    }
    is_mark(s[at])
}

// The same as `text_column`, for a text of any length.
fn any_text(s: &[u8], at: usize) -> Option<usize>
    ensures { result ≡ column_of is_text space s.now at }
{
    let e = crate::column(s, at, crate::any_end(s, at), b' ')?;
    if is_text(&s[at..e]) {
        return Some(e);
    }
    None
}

// The end of the text's column from place at on. Most metadata are `~`.
pub fn text_column(s: &[u8], at: usize) -> Option<usize>
    ensures { result ≡ column_of is_text space s.now at }
{
    if one_mark(s, at) {
        return Some(at + 1);
    }
    any_text(s, at)
}

// The same as `c_string_column`, for texts of any bytes.
fn any_c_string(s: &[u8], at: usize) -> Option<usize>
    ensures { result ≡ column_of is_cstring space s.now at }
{
    let e = crate::column(s, at, crate::any_end(s, at), b' ')?;
    if is_c_string(&s[at..e]) {
        return Some(e);
    }
    None
}

// The end of the column from place at on that is a text without byte 00. Most are ASCII: then each byte is looked at once.
pub fn c_string_column(s: &[u8], at: usize) -> Option<usize>
    ensures { result ≡ column_of is_cstring space s.now at }
{
    if let Some(e) = ascii_pairs::pairs_column(s, at) {
        return Some(e);
    }
    any_c_string(s, at)
}

// The same as `known_text_end`, for more than one byte: pairs of digits, of which every second byte is looked at; most are short.
pub fn known_pairs_end(s: &[u8], at: usize) -> usize
    requires { HasPairs s.now at }
    ensures { result ≡ stop_from s.now at }
{
    let mut i = at + 2;
    while i - at < BLOCK {
        if s[i] == b' ' {
            return i;
        }
        i += 2;
    }
    crate::any_end(s, i)
}

// The end of the text that is known to stand from place at on: `~`, `-` or pairs of digits.
pub fn known_text_end(s: &[u8], at: usize) -> usize
    requires { HasText s.now at }
    ensures { result ≡ stop_from s.now at }
{
    if s[at + 1] == b' ' {
        return at + 1;
    }
    known_pairs_end(s, at)
}
