// Hexadecimal pairs whose first digit is `1` to `7`: each says an ASCII byte, and none says 00. So most names are.
ghost use Rattle.std.specs.Prelude.{◌≡◌, ◌+◌, ◌≤◌, length};
ghost use Rattle.sheets.specs.Rule.{passes};
ghost use Rattle.sheets.specs.Bytes.{space};
ghost use Rattle.columns.specs.Columns.{part, block_size, column_of};
ghost use Rattle.columns.specs.Pairs.{is_pair, pairs, pairs_length, pairs_from, PairsPass, are_pairs};

use crate::{BLOCK, NEAR};

// Both tests are joined without a branch: in `are_pairs` they compile to vector instructions.
fn is_pair(a: u8, b: u8) -> bool
    ensures { result ≡ is_pair a b }
{
    ((b'1' <= a) & (a <= b'7')) & (((b'0' <= b) & (b <= b'9')) | ((b'a' <= b) & (b <= b'f')))
}

// The place of the first pair from place at on that is none of these, or where less than a pair is left before end.
fn pairs_before(s: &[u8], at: usize, end: usize) -> usize
    requires { (at ≤ end) × (end ≤ length s.now) }
    ensures { result ≡ at + pairs_length (part s.now at end) }
{
    let mut i = at;
    while 2 <= end - i {
        if !is_pair(s[i], s[i + 1]) {
            return i;
        }
        i += 2;
    }
    i
}

// Whether a block is such pairs. Nothing leaves the loop early.
fn are_pairs(b: &[u8]) -> bool
    requires { length b.now ≡ block_size }
    ensures { result ≡ passes (pairs b.now) }
{
    let mut ok = true;
    for k in 0..BLOCK / 2 {
        ok = ok & is_pair(b[2 * k], b[2 * k + 1]);
    }
    ok
}

// The place after the blocks from place at on that are such pairs.
fn blocks_from(s: &[u8], at: usize) -> usize
    requires { at ≤ length s.now }
    ensures { PairsPass s.now at result }
{
    let mut i = at;
    while BLOCK <= s.len() - i {
        let next = i + BLOCK;
        if !are_pairs(&s[i..next]) {
            return i;
        }
        i = next;
    }
    i
}

// The first place from place at on where no such pair stands; pairs one by one first, as most names are short.
pub fn pairs_from(s: &[u8], at: usize) -> usize
    requires { at ≤ length s.now }
    ensures { result ≡ pairs_from s.now at }
{
    if s.len() - at < BLOCK {
        return pairs_before(s, at, s.len());
    }
    let near = at + NEAR;
    let e = pairs_before(s, at, near);
    if e < near {
        return e;
    }
    pairs_before(s, blocks_from(s, e), s.len())
}

// The end of the column from place at on, if it is such pairs and a space ends it: the end and the text are found in one look.
pub fn pairs_column(s: &[u8], at: usize) -> Option<usize>
    ensures { result ≡ column_of are_pairs space s.now at }
{
    if s.len() <= at {
        return None;
    }
    let e = pairs_from(s, at);
    if s.len() <= e {
        return None;
    }
    if s[e] != b' ' {
        return None;
    }
    if e == at {
        return None;
    }
    Some(e)
}
