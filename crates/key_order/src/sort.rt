// The entries of a metadata block's keys sorted without a heap: by merging, and by insertion where there are few.
ghost use Rattle.std.specs.Prelude.{◌≡◌, ◌≤◌, length, take};
ghost use Rattle.key_order.specs.Entry.{key_at, rest_at};
ghost use Rattle.key_order.specs.Order.{ordered, Room};
ghost use Rattle.key_order.specs.Merge.{Sorts};

// Sorts `to`, of which `from` is a copy; how many entries there are then. The halves are sorted into `from`, and merged into `to`.
fn sort_into(text: &[u8], from: &mut [u32], to: &mut [u32], shared: u32) -> usize
    requires { from.old ≡ to.old }
    ensures { Sorts (rest_at text.now shared) to.old to.new result }
{
    let n = to.len();
    // up to eight entries are sorted sooner by insertion than by merging
    if n < 9 {
        return crate::insert::sort_few(text, from, to, shared);
    }
    let half = n / 2;
    let a = sort_into(text, &mut to[..half], &mut from[..half], shared);
    let b = sort_into(text, &mut to[half..], &mut from[half..], shared);
    crate::merge::join_halves(text, from, to, half, a, b, shared)
}

// Sorts the first n entries by their keys, the last of equal keys kept; how many there are then. No entry past those means anything.
pub fn sort_keys(text: &[u8], entries: &mut [u32], spare: &mut [u32], n: usize) -> usize
    requires { Room entries.old spare.old n }
    ensures upper_bound { (result ≤ n) × (take result entries.new ≡ ordered (key_at text.now) (take n entries.old)) }
    ensures entries_len_unchanged { (length entries.new ≡ length entries.old) × (length spare.new ≡ length spare.old) }
{
    let shared = crate::shared::shared_by(text, &entries[..n]);
    crate::merge::put_at(spare, 0, &entries[..n]);
    sort_into(text, &mut spare[..n], &mut entries[..n], shared)
}
