// Decimal numbers in hexadecimal text, as a format has them in a schema line.
ghost use Rattle.std.specs.Prelude.{◌+◌, ◌*◌, ◌≤◌};
ghost use Rattle.sheets.specs.Number.{decimal};
ghost use Rattle.sheets.specs.Text.{hex};
ghost use Rattle.buffer.specs.Over.{IsUsize, PutAt};
ghost use Rattle.put_format.specs.Counted.{counted_text, CanCount};

// Writes n from place at on, as much as fits; the place after it. A u64 has at most 20 digits.
pub fn put_number(out: &mut [u8], at: usize, n: u64) -> usize
    requires { IsUsize (at + 40) }
    ensures { PutAt at (hex (decimal n)) result out.old out.new × (result ≤ at + 40) }
{
    let mut digits = [0u8; 20];
    let end = decimal::put::put_u64(&mut digits, 0, n);
    hexadecimal::put::put_hex(out, at, &digits[..end])
}

// Writes 0, 1, .. up to `count` of them, with commas between; the place after them.
pub fn put_counted(out: &mut [u8], at: usize, count: u64) -> usize
    requires { CanCount count at }
    ensures { PutAt at (hex (counted_text count)) result out.old out.new × (result ≤ at + 42 * count) }
{
    let mut end = put_number(out, at, 0);
    for i in 1..count {
        let next = hexadecimal::put::put_hex(out, end, b",");
        end = put_number(out, next, i);
    }
    end
}
