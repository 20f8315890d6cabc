// Entries in order merged with entries in order.
ghost use Rattle.std.specs.Prelude.{◌≡◌, true, ◌++◌, ◌+◌, ◌≤◌, length, take, drop};
ghost use Rattle.sheets.specs.Rule.{Meets};
ghost use Rattle.key_order.specs.Entry.{rest_at};
ghost use Rattle.key_order.specs.Merge.{ascends, precedes, Mergeable, Halves, Merges};

use std::cmp::Ordering;

// Writes s into out from `at` on; where it ends.
pub fn put_at(out: &mut [u32], at: usize, s: &[u32]) -> usize
    requires { at + length s.now ≤ length out.old }
    ensures { (result ≡ at + length s.now) × (take result out.new ≡ take at out.old ++ s.now) }
{
    // by element: `copy_from_slice` becomes `memmove`, which the library's host would have to bring
    for (i, &e) in s.iter().enumerate() {
        out[at + i] = e;
    }
    at + s.len()
}

// Merges a and b into out; of equal keys that of b stays. How many entries there are.
fn merge(text: &[u8], a: &[u32], b: &[u32], out: &mut [u32], shared: u32) -> usize
    requires { Mergeable (rest_at text.now shared) a.now b.now out.old }
    ensures { Merges (rest_at text.now shared) a.now b.now out.new result }
{
    let mut i = 0;
    let mut j = 0;
    let mut k = 0;
    // by index: the three places advance at different speeds, so that iterators would be no plainer
    while i < a.len() {
        if b.len() <= j {
            return put_at(out, k, &a[i..]);
        }
        let p = a[i];
        let q = b[j];
        match crate::compare_keys(text, p, q, shared) {
            Ordering::Less => {
                out[k] = p;
                i += 1;
                k += 1;
            }
            Ordering::Equal => {
                out[k] = q;
                i += 1;
                j += 1;
                k += 1;
            }
            Ordering::Greater => {
                out[k] = q;
                j += 1;
                k += 1;
            }
        }
    }
    put_at(out, k, &b[j..])
}

// Whether all keys of a come before those of b: the last of a and the first of b tell.
fn all_before(text: &[u8], a: &[u32], b: &[u32], shared: u32) -> bool
    requires { Meets (ascends (rest_at text.now shared) a.now) × Meets (ascends (rest_at text.now shared) b.now) }
    ensures { result ≡ true → Meets (precedes (rest_at text.now shared) a.now b.now) }
{
    if a.is_empty() || b.is_empty() {
        return false;
    }
    let p = a[a.len() - 1];
    let q = b[0];
    byte_order::is_before(
        crate::rest_of(text, p, shared),
        crate::rest_of(text, q, shared),
    )
}

fn put_both(out: &mut [u32], a: &[u32], b: &[u32]) -> usize
    requires { length a.now + length b.now ≤ length out.old }
    ensures { (result ≡ length a.now + length b.now) × (take result out.new ≡ a.now ++ b.now) }
{
    let k = put_at(out, 0, a);
    put_at(out, k, b)
}

// Merges a and b into out as `merge` does, at once where one of them comes wholly before the other.
fn join(text: &[u8], a: &[u32], b: &[u32], out: &mut [u32], shared: u32) -> usize
    requires { Mergeable (rest_at text.now shared) a.now b.now out.old }
    ensures { Merges (rest_at text.now shared) a.now b.now out.new result }
{
    if all_before(text, a, b, shared) {
        return put_both(out, a, b);
    }
    if all_before(text, b, a, shared) {
        return put_both(out, b, a);
    }
    merge(text, a, b, out, shared)
}

// Merges the two parts of `from` that `sort_into` has sorted.
pub fn join_halves(
    text: &[u8],
    from: &[u32],
    out: &mut [u32],
    half: usize,
    a: usize,
    b: usize,
    shared: u32,
) -> usize
    requires { Halves (rest_at text.now shared) from.now out.old half a b }
    ensures { Merges (rest_at text.now shared) (take a from.now) (take b (drop half from.now)) out.new result }
{
    let end = half + b;
    join(text, &from[..a], &from[half..end], out, shared)
}
