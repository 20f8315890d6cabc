// Numbers written in decimal digits.
ghost use Rattle.std.specs.Prelude.{◌≡◌, ◌+◌, ◌≤◌, ◌<◌, nat_abs, drop, length};
ghost use Rattle.sheets.specs.Number.{decimal, write_signed};
ghost use Rattle.buffer.specs.Over.{IsUsize, PutAt};

// The digits of a number, at the end of an array.
#[derive(Drop)]
struct Digits20 {
    bytes: [u8; 20],
    start: usize,
}

fn digits_of(n: u64) -> Digits20
    ensures { (result.start ≤ 20) × (length result.bytes ≡ 20) × (drop result.start result.bytes ≡ decimal n) }
{
    let mut bytes = [0u8; 20];
    let mut i: usize = 20;
    let mut m = n;
    // by index: the last digit comes first, and how many there are is not known before
    while 10 <= m {
        i -= 1;
        bytes[i] = b'0' + (m % 10) as u8;
        m = m / 10;
    }
    i -= 1;
    bytes[i] = b'0' + m as u8;
    Digits20 { bytes, start: i }
}

// Writes n from place at on, as much as fits; the place after it. A u64 has at most 20 digits.
fn put_digits(out: &mut [u8], at: usize, n: u64) -> usize
    requires { IsUsize (at + 20) }
    ensures { PutAt at (decimal n) result out.old out.new }
{
    let d = digits_of(n);
    let bytes = d.bytes;
    let start = d.start;
    buffer::put_at(out, at, &bytes[start..])
}

// The same for a number of two digits, as most kinds are.
fn put_two(out: &mut [u8], at: usize, n: u64) -> usize
    requires { IsUsize (at + 20) × (10 ≤ n) × (n < 100) }
    ensures { PutAt at (decimal n) result out.old out.new }
{
    let second = buffer::put_byte(out, at, b'0' + (n / 10) as u8);
    buffer::put_byte(out, second, b'0' + (n % 10) as u8)
}

// Writes n from place at on, as much as fits; the place after it. Most numbers of a sheet have one digit.
pub fn put_u64(out: &mut [u8], at: usize, n: u64) -> usize
    requires { IsUsize (at + 20) }
    ensures { PutAt at (decimal n) result out.old out.new }
{
    if n < 10 {
        return buffer::put_byte(out, at, b'0' + n as u8);
    }
    if n < 100 {
        return put_two(out, at, n);
    }
    put_digits(out, at, n)
}

// Rust's `i64::unsigned_abs`.
fn unsigned_abs(z: i64) -> u64
    ensures { result ≡ nat_abs z }
{
    if z < 0 {
        return ((-1 - z) as u64) + 1;
    }
    z as u64
}

// Writes z from place at on, as much as fits; the place after it.
pub fn put_i64(out: &mut [u8], at: usize, z: i64) -> usize
    requires { IsUsize (at + 21) }
    ensures { PutAt at (write_signed z) result out.old out.new }
{
    let m = unsigned_abs(z);
    if z < 0 {
        let a = buffer::put_at(out, at, b"-");
        return put_u64(out, a, m);
    }
    put_u64(out, at, m)
}

pub fn put_i32(out: &mut [u8], at: usize, z: i32) -> usize
    requires { IsUsize (at + 21) }
    ensures { PutAt at (write_signed z) result out.old out.new }
{
    put_i64(out, at, z as i64)
}
