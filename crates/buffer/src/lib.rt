// Byte strings written into a lent buffer as far as they fit, compared, and cleared; one byte as a number. A writer whose buffer is full goes on counting.
#![tactic(auto)]

ghost use Rattle.std.specs.Prelude.{◌≡◌, [], ◌∷◌, ◌+◌, ◌<◌, min, length, replicate};
ghost use Rattle.sheets.specs.Bytes.{same};
ghost use Rattle.buffer.specs.Over.{over, IsUsize, PutAt};

// A byte as a number of 64 bits.
pub fn wide(b: u8) -> u64
    ensures { (result ≡ b) × (result < 256) }
{
    b as u64
}

// The place n, or the end where that comes first: a start for `&mut out[n..]` that is always in range.
pub fn within(n: usize, end: usize) -> usize
    ensures { result ≡ min n end }
{
    if n < end { n } else { end }
}

// Writes s over the first bytes of out, as much as fits.
pub fn put(out: &mut [u8], s: &[u8])
    ensures { out.new ≡ over s.now out.old }
{
    let n = within(s.len(), out.len());
    // by element: `copy_from_slice` becomes `memmove`, which the library's host would have to bring
    for (i, &b) in s[..n].iter().enumerate() {
        out[i] = b;
    }
}

// Writes s from place at on, as much as fits; the place after it.
pub fn put_at(out: &mut [u8], at: usize, s: &[u8]) -> usize
    requires { IsUsize (at + length s.now) }
    ensures { PutAt at s.now result out.old out.new }
{
    let end = at + s.len();
    if at < out.len() {
        put(&mut out[at..], s);
    }
    end
}

// Writes one byte at place at, if that is within; the place after it.
pub fn put_byte(out: &mut [u8], at: usize, b: u8) -> usize
    requires { IsUsize (at + 1) }
    ensures { PutAt at (b ∷ []) result out.old out.new }
{
    let end = at + 1;
    if at < out.len() {
        out[at] = b;
    }
    end
}

// Every byte 0.
pub fn clear(out: &mut [u8])
    ensures { out.new ≡ replicate (length out.old) 0 }
{
    out.fill(0);
}

// Whether a and b are the same bytes.
pub fn same(a: &[u8], b: &[u8]) -> bool
    ensures { result ≡ same a.now b.now }
{
    a == b
}
