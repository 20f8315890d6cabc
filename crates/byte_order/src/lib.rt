// Byte strings compared in byte order, as the source's `str` and `BTreeMap` have it.
#![tactic(auto)]

ghost use Rattle.std.specs.Prelude.{◌≡◌, ◌+◌, ◌≤◌, length};
ghost use Rattle.sheets.specs.Field.{before};
ghost use Rattle.byte_order.specs.Compare.{ordering, ordering_answer, Word};

use std::cmp::Ordering;

// Four bytes as one number: two such numbers stand in the order of their bytes, so that a comparison takes four bytes at a time.
pub fn word_at(s: &[u8], i: usize) -> u32
    requires { i + 4 ≤ length s.now }
    ensures { Word s.now i result }
{
    let high = buffer::wide(s[i]) * 256 + buffer::wide(s[i + 1]);
    let low = buffer::wide(s[i + 2]) * 256 + buffer::wide(s[i + 3]);
    (high * 65536 + low) as u32
}

// `Ord::cmp` of byte strings.
pub fn compare(a: &[u8], b: &[u8]) -> Ordering
    ensures { ordering_answer result ≡ ordering a.now b.now }
{
    let n = a.len().min(b.len());
    let mut i = 0;
    while 4 <= n - i {
        let x = word_at(a, i);
        let y = word_at(b, i);
        if x != y {
            return x.cmp(&y);
        }
        i += 4;
    }
    // at most three bytes are left of the shorter: `cmp` of slices, which looks at groups of bytes first, takes longer over so few
    for k in i..n {
        if a[k] != b[k] {
            return a[k].cmp(&b[k]);
        }
    }
    a.len().cmp(&b.len())
}

// Whether a comes before b in byte order.
pub fn is_before(a: &[u8], b: &[u8]) -> bool
    ensures { result ≡ before a.now b.now }
{
    compare(a, b).is_lt()
}
