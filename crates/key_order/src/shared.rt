// How many bytes the keys of a metadata block have in common, so that a comparison starts after them.
ghost use Rattle.std.specs.Prelude.{◌≡◌, ◌≤◌, length, take};
ghost use Rattle.key_order.specs.Entry.{Shares};

// How many of the first r bytes of a are those of b too, counted by fours.
fn common(a: &[u8], b: &[u8], r: usize) -> usize
    requires { r ≤ length a.now }
    ensures { (result ≤ r) × (take result a.now ≡ take result b.now) }
{
    let mut i = 0;
    // by index: four bytes are read at once as one number
    while 4 <= r - i {
        if b.len() < i + 4 {
            return i;
        }
        if words::word4_at(a, i) != words::word4_at(b, i) {
            return i;
        }
        i += 4;
    }
    i
}

// How many bytes all keys share, or fewer.
pub fn shared_by(text: &[u8], entries: &[u32]) -> u32
    ensures { Shares text.now entries.now result }
{
    // few entries are sorted sooner than what they share is found
    if entries.len() < 9 {
        return 0;
    }
    let first = crate::key_of(text, entries[0]);
    let mut r = first.len();
    for &e in &entries[1..] {
        if r < 4 {
            return 0;
        }
        r = common(first, crate::key_of(text, e), r);
    }
    r as u32
}
