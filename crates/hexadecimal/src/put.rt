// Lowercase hexadecimal text, written.
ghost use Rattle.std.specs.Prelude.{◌≡◌, ◌+◌, ◌<◌, length};
ghost use Rattle.sheets.specs.Text.{hex_digit, hex};
ghost use Rattle.buffer.specs.Over.{over, IsUsize, PutAt};

// No branch: `a` to `f` stand 39 places after what would follow `9`.
pub fn digit_of(n: u8) -> u8
    requires { n < 16 }
    ensures { result ≡ hex_digit n }
{
    48 + n + 39 * (n / 10)
}

// Writes the text of s over the first bytes of out, as much as fits: pair by pair, so that the loop compiles to vector instructions, then the first
// digit of a pair that fits by half.
fn put_digits(out: &mut [u8], s: &[u8])
    requires { IsUsize (length (hex s.now)) }
    ensures { out.new ≡ over (hex s.now) out.old }
{
    let n = buffer::within(2 * s.len(), out.len());
    // by index: a byte read is two bytes written
    for k in 0..n / 2 {
        out[2 * k] = digit_of(s[k] / 16);
        out[2 * k + 1] = digit_of(s[k] % 16);
    }
    if n % 2 == 1 {
        out[n - 1] = digit_of(s[n / 2] / 16);
    }
}

// Writes the text of s from place at on, as much as fits; the place after it.
pub fn put_hex(out: &mut [u8], at: usize, s: &[u8]) -> usize
    requires { IsUsize (at + length (hex s.now)) }
    ensures { PutAt at (hex s.now) result out.old out.new }
{
    let end = at + 2 * s.len();
    if at < out.len() {
        put_digits(&mut out[at..], s);
    }
    end
}
