// UTF-8 by one class for each byte value.
#![tactic(auto)]

ghost use Rattle.std.specs.Prelude.{◌≡◌, true};
ghost use Rattle.sheets.specs.Utf8.{is_utf8};
ghost use Rattle.sheets.specs.Utf8Classes.{class_of, next_of};
ghost use Rattle.hexadecimal.specs.Hex.{is_hex, bytes_of};
ghost use Rattle.utf8.specs.Tables.{ClassTable, NextTable, Ready, all_ascii};

const CLASS: [u8; 256] = [
    0, // 00..7f
    0, 0, 0, 0, 0, 0, 0, 0, 0, 0, 0, 0, 0, 0, 0, 0, 0, 0, 0, 0, 0, 0, 0, 0, 0, 0, 0, 0, 0, 0, 0, 0,
    0, 0, 0, 0, 0, 0, 0, 0, 0, 0, 0, 0, 0, 0, 0, 0, 0, 0, 0, 0, 0, 0, 0, 0, 0, 0, 0, 0, 0, 0, 0, 0,
    0, 0, 0, 0, 0, 0, 0, 0, 0, 0, 0, 0, 0, 0, 0, 0, 0, 0, 0, 0, 0, 0, 0, 0, 0, 0, 0, 0, 0, 0, 0, 0,
    0, 0, 0, 0, 0, 0, 0, 0, 0, 0, 0, 0, 0, 0, 0, 0, 0, 0, 0, 0, 0, 0, 0, 0, 0, 0, 0, 0, 0, 0, 0, 1, // 80..8f
    1, 1, 1, 1, 1, 1, 1, 1, 1, 1, 1, 1, 1, 1, 1, 2, // 90..9f
    2, 2, 2, 2, 2, 2, 2, 2, 2, 2, 2, 2, 2, 2, 2, 3, // a0..bf
    3, 3, 3, 3, 3, 3, 3, 3, 3, 3, 3, 3, 3, 3, 3, 3, 3, 3, 3, 3, 3, 3, 3, 3, 3, 3, 3, 3, 3, 3, 3, 4, // c0
    4, // c1
    5, // c2..df
    5, 5, 5, 5, 5, 5, 5, 5, 5, 5, 5, 5, 5, 5, 5, 5, 5, 5, 5, 5, 5, 5, 5, 5, 5, 5, 5, 5, 5, 6, // e0
    7, // e1..ec
    7, 7, 7, 7, 7, 7, 7, 7, 7, 7, 7, 8, // ed
    7, // ee, ef
    7, 9, // f0
    10, // f1..f3
    10, 10, 11, // f4
    4, // f5..ff
    4, 4, 4, 4, 4, 4, 4, 4, 4, 4,
];

// For each class a row of hexadecimal digits, the next states: of state 0 the last digit, of state 8 the first.
const NEXT: [u64; 12] = [
    0x111111110, // 00..7f
    0x331212011, // 80..8f
    0x133212011, // 90..9f
    0x133122011, // a0..bf
    0x111111111, // c0, c1, f5..ff
    0x111111112, // c2..df
    0x111111114, // e0
    0x111111113, // e1..ec, ee, ef
    0x111111115, // ed
    0x111111116, // f0
    0x111111117, // f1..f3
    0x111111118, // f4
];

// A table is returned once and lent, since a constant that is named in a function is stored anew at each call.
fn class_table() -> [u8; 256]
    ensures { ClassTable result }
{
    CLASS
}

fn next_table() -> [u64; 12]
    ensures { NextTable result }
{
    NEXT
}

// The state after state q and the byte b.
fn step(class: &[u8; 256], next: &[u64; 12], q: u64, b: u8) -> u64
    requires { Ready class.now next.now q }
    ensures { result ≡ next_of q (class_of b) }
{
    let k = class[b as usize];
    (next[k as usize] >> (4 * q)) % 16
}

// Nothing leaves this loop early, so that it compiles to vector instructions.
fn is_ascii(s: &[u8]) -> bool
    ensures { result ≡ all_ascii s.now }
{
    let mut ok = true;
    for &b in s {
        ok = ok & (b <= 127);
    }
    ok
}

fn decide(s: &[u8]) -> bool
    ensures { result ≡ is_utf8 s.now }
{
    let class = class_table();
    let next = next_table();
    let mut q: u64 = 0;
    for &b in s {
        q = step(&class, &next, q, b);
    }
    q == 0
}

// Whether the bytes are UTF-8. Most texts are ASCII, which takes no tables.
pub fn is_utf8(s: &[u8]) -> bool
    ensures { result ≡ is_utf8 s.now }
{
    if is_ascii(s) {
        return true;
    }
    decide(s)
}

// Whether the bytes of hexadecimal text are ASCII: the first digit of each is at most `7`.
fn is_ascii_hex(s: &[u8]) -> bool
    requires { is_hex s.now ≡ true }
    ensures { result ≡ all_ascii (bytes_of s.now) }
{
    let mut ok = true;
    // by index: only the first digit of each pair is read
    for k in 0..s.len() / 2 {
        ok = ok & (s[2 * k] <= 55);
    }
    ok
}

fn decide_hex(s: &[u8]) -> bool
    requires { is_hex s.now ≡ true }
    ensures { result ≡ is_utf8 (bytes_of s.now) }
{
    let class = class_table();
    let next = next_table();
    let mut q: u64 = 0;
    // by index: `byte_at` takes a pair's place
    for k in 0..s.len() / 2 {
        q = step(&class, &next, q, hexadecimal::byte_at(s, k));
    }
    q == 0
}

// Whether the bytes of hexadecimal text are UTF-8.
pub fn is_utf8_hex(s: &[u8]) -> bool
    requires { is_hex s.now ≡ true }
    ensures { result ≡ is_utf8 (bytes_of s.now) }
{
    if is_ascii_hex(s) {
        return true;
    }
    decide_hex(s)
}
