// The 32-bit counts and lengths of a metadata block in hexadecimal text, most significant byte first (`big`) or last. They stay unsigned: a negative one
// is 2147483648 or more.
#![tactic(auto)]

ghost use Rattle.std.specs.Prelude.{◌≡◌, true, [], ◌∷◌, ◌+◌, ◌*◌, ◌<◌, get_or, take, drop};
ghost use Rattle.sheets.specs.Text.{hex_digit, hex};
ghost use Rattle.buffer.specs.Over.{IsUsize, PutAt};
ghost use Rattle.hexadecimal.specs.Hex.{bytes_of, HasPair};
ghost use Rattle.words.specs.Words.{low_bytes};
ghost use Rattle.endian.specs.Word.{word_value, word_bytes, HasWord, HasThree, four_at};

// The byte of pair k, as a number of 32 bits.
fn wide_at(s: &[u8], k: usize) -> u32
    requires { HasPair s.now k }
    ensures { (result ≡ get_or (bytes_of s.now) k 0) × (result < 256) }
{
    hexadecimal::byte_at(s, k) as u32
}

// The number of four bytes, the least significant first.
fn joined(a: u32, b: u32, c: u32, d: u32) -> u32
    requires { (a < 256) × (b < 256) × (c < 256) × (d < 256) }
    ensures { result ≡ a + 256 * (b + 256 * (c + 256 * d)) }
{
    a + 256 * (b + 256 * (c + 256 * d))
}

// The number in the four bytes from pair k on, each byte decoded.
fn bytes_at(s: &[u8], k: usize, big: bool) -> u32
    requires { HasWord s.now k }
    ensures { result ≡ word_value big (four_at s.now k) }
{
    let a = wide_at(s, k);
    let b = wide_at(s, k + 1);
    let c = wide_at(s, k + 2);
    let d = wide_at(s, k + 3);
    if big {
        return joined(d, c, b, a);
    }
    joined(a, b, c, d)
}

// Whether the three bytes from pair k on are 0: their digits are one word.
fn three_zeros(s: &[u8], k: usize) -> bool
    requires { HasThree s.now k }
    ensures { result ≡ true → take 3 (drop k (bytes_of s.now)) ≡ 0 ∷ 0 ∷ 0 ∷ [] }
{
    words::word6_at(s, 2 * k) == words::hex_digits::three_pairs(0, 0, 0)
}

// The number in the four bytes from pair k on. Most are below 256: one byte is decoded then.
pub fn word_at(s: &[u8], k: usize, big: bool) -> u32
    requires { HasWord s.now k }
    ensures { result ≡ word_value big (four_at s.now k) }
{
    if big {
        if three_zeros(s, k) {
            return wide_at(s, k + 3);
        }
        return bytes_at(s, k, big);
    }
    if three_zeros(s, k + 1) {
        return wide_at(s, k);
    }
    bytes_at(s, k, big)
}

fn word_bytes(n: u32, big: bool) -> [u8; 4]
    ensures { result ≡ word_bytes big n }
{
    let a = (n % 256) as u8;
    let b = (n / 256 % 256) as u8;
    let c = (n / 65536 % 256) as u8;
    let d = (n / 16777216 % 256) as u8;
    if big {
        return [d, c, b, a];
    }
    [a, b, c, d]
}

// Writes the four bytes of n in hexadecimal from place at on, as much as fits; the place after them.
fn put_bytes(out: &mut [u8], at: usize, n: u32, big: bool) -> usize
    requires { IsUsize (at + 8) }
    ensures { PutAt at (hex (word_bytes big n)) result out.old out.new }
{
    let b = word_bytes(n, big);
    hexadecimal::put::put_hex(out, at, &b)
}

fn wide_digit(n: u32) -> u64
    requires { n < 16 }
    ensures { (result ≡ hex_digit n) × (result < 256) }
{
    hexadecimal::put::digit_of(n as u8) as u64
}

// The text of a number below 256 as one word: its two digits, with six zeros after or before them.
fn small_text(n: u32, big: bool) -> u64
    requires { n < 256 }
    ensures { low_bytes 8 result ≡ hex (word_bytes big n) }
{
    let high = wide_digit(n / 16);
    let low = wide_digit(n % 16);
    if big {
        return 0x303030303030 + high * 0x1000000000000 + low * 0x100000000000000;
    }
    0x3030303030300000 + high + low * 256
}

// Writes such a number: where it fits, its text is one word.
fn put_small(out: &mut [u8], at: usize, n: u32, big: bool) -> usize
    requires { IsUsize (at + 8) × (n < 256) }
    ensures { PutAt at (hex (word_bytes big n)) result out.old out.new }
{
    let end = at + 8;
    if out.len() < end {
        return put_bytes(out, at, n, big);
    }
    words::put_word8(out, at, small_text(n, big));
    end
}

// The same; most lengths are below 256.
pub fn put_word(out: &mut [u8], at: usize, n: u32, big: bool) -> usize
    requires { IsUsize (at + 8) }
    ensures { PutAt at (hex (word_bytes big n)) result out.old out.new }
{
    if n < 256 {
        return put_small(out, at, n, big);
    }
    put_bytes(out, at, n, big)
}
