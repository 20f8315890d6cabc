// A few entries sorted by putting each at its place.
ghost use Rattle.std.specs.Prelude.{◌≡◌, ◌++◌, ◌∷◌, ◌+◌, ◌-◌, ◌≤◌, ◌<◌, length, take, drop};
ghost use Rattle.key_order.specs.Entry.{rest_at};
ghost use Rattle.key_order.specs.Order.{insert_entry};
ghost use Rattle.key_order.specs.Merge.{Sorts};

use std::cmp::Ordering;
use std::mem;

// The entry v first, and then those of part but the last.
fn shift_in(part: &mut [u32], v: u32)
    ensures { part.new ≡ take (length part.old) (v ∷ part.old) }
{
    let mut w = v;
    for e in part.iter_mut() {
        w = mem::replace(e, w);
    }
}

// Puts v at j, before the entries from j to n, which move up by one; how many there are then.
fn open_at(out: &mut [u32], j: usize, n: usize, v: u32) -> usize
    requires { (j ≤ n) × (n < length out.old) }
    ensures { (result ≡ n + 1) × (take result out.new ≡ take j out.old ++ (v ∷ take (n - j) (drop j out.old))) }
{
    let end = n + 1;
    shift_in(&mut out[j..end], v);
    end
}

// Puts p at its place among the first n entries, unless its key is there; how many there are then.
fn insert_entry(text: &[u8], out: &mut [u32], n: usize, p: u32, shared: u32) -> usize
    requires { n < length out.old }
    ensures { (result ≤ n + 1) × (take result out.new ≡ insert_entry (rest_at text.now shared) p (take n out.old)) }
{
    for j in 0..n {
        let q = out[j];
        match crate::compare_keys(text, p, q, shared) {
            Ordering::Less => return open_at(out, j, n, p),
            Ordering::Equal => return n,
            Ordering::Greater => {}
        }
    }
    open_at(out, n, n, p)
}

// Sorts a few entries from the last to the first, each put at its place.
pub fn sort_few(text: &[u8], from: &[u32], to: &mut [u32], shared: u32) -> usize
    requires { length from.now ≤ length to.old }
    ensures { Sorts (rest_at text.now shared) from.now to.new result }
{
    let mut r = 0;
    for &p in from.iter().rev() {
        r = insert_entry(text, to, r, p, shared);
    }
    r
}
